// What holds of documents whatever code reads and prints them.
ghost use Rattle.std.specs.Prelude.{◌≡◌, ◌≤◌, ℕ, List, Ok};
ghost use Rattle.serde_json.specs.Data.{depth};
ghost use Rattle.cs_json.specs.declared.document.Document.{Document};
ghost use Rattle.cs_json.specs.Printed.{data_of, printed};
ghost use Rattle.cs_json.specs.Readable.{IsReadable};
ghost use Rattle.cs_json.specs.Shape.{doc_of, document, Says};
ghost use Rattle.cs_json.specs.Utf8.{IsUtf8Document};

/// Laws of reading and printing; the body does nothing.
///
/// A readable document is the document of the value that it prints as, and of its printed text, its
/// texts being UTF-8 as those in memory are. What bytes say is readable, and a printed value nests
/// at most 7 deep.
pub fn reads_back()
    ensures value { (doc : Document) → IsReadable doc → doc_of (data_of doc) ≡ Ok doc }
    ensures text { (doc : Document) → IsReadable doc → IsUtf8Document doc
        → document (printed doc) ≡ Says doc }
    ensures readable { (doc : Document) (bytes : List ℕ) → document bytes ≡ Says doc
        → IsReadable doc }
    ensures nests { (doc : Document) → depth (data_of doc) ≤ 7 }
{}
