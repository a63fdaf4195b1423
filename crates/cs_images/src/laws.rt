// What an image means for a memory's words. It is a function without effect, whose clauses are the law.
ghost use Rattle.std.specs.Prelude.{◌≡◌, ℕ, codes, length};
ghost use Rattle.std.specs.List.{AllByRecursion};
ghost use Rattle.cs_json.specs.declared.document.CellDecl.{CellDecl};
ghost use Rattle.cs_json.specs.declared.document.Datum.{Datum};
ghost use Rattle.cs_cells.specs.declared.memory.MemShape.{MemShape};
ghost use Rattle.cs_cells.specs.Memories.{Words, word_count};
ghost use Rattle.cs_modules.specs.Digits.{digits_of};
ghost use Rattle.cs_modules.specs.Memories.{first_words};
ghost use Rattle.cs_modules.specs.Pins.{parameter};
ghost use Rattle.cs_modules.specs.Words.{image_words};
ghost use Rattle.cs_images.specs.Images.{image_bits, words_of_digits};

/// An image of words of one width is cut into the words that its text's digits give, as those of INIT give the words
/// that a memory starts with.
pub fn words_of_an_image()
    ensures image { (words : Words) (width : ℕ) (text : Datum) → AllByRecursion (λ word. length word ≡ width) words
        → image_words words (image_bits words text) ≡ words_of_digits (digits_of text) width (length words) }
    ensures init { (cell : CellDecl) (shape : MemShape)
        → first_words cell shape ≡ words_of_digits (parameter cell (codes "INIT")) shape.width (word_count shape) }
{}
