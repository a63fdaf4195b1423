// Words with a name or a number.
ghost use Rattle.std.specs.Prelude.{◌≡◌, ◌++◌, IfOk};
ghost use Rattle.serde_json.specs.Data.{string};
ghost use Rattle.serde_json.specs.View.{view};
ghost use Rattle.cs_report.specs.Words.{quoted};

use cs_base::Text;
use serde_json::Value;
use std::alloc::{AllocError, Global};

fn string(alloc: Global, text: &str) -> Result<Value, AllocError>
    ensures { IfOk result (λ value. view value ≡ string text.now) }
{
    Value::try_from_str(alloc, text)
}

/// The JSON spelling of a text, in quotes.
pub(crate) fn quoted(alloc: Global, text: &str) -> Result<Text, AllocError>
    ensures { IfOk result (λ spelt. spelt ≡ quoted text.now) }
{
    let value = string(alloc, text)?;
    Ok(Text::from_string(value.to_string(alloc)?))
}

/// Words and a text.
pub(crate) fn text_after(alloc: Global, words: &str, text: &str) -> Result<Text, AllocError>
    ensures { IfOk result (λ made. made ≡ words.now ++ text.now) }
{
    Ok(Text::from_string(format!(in alloc; "{words}{text}")?))
}

/// Words and the JSON spelling of a text.
pub(crate) fn quoted_after(alloc: Global, words: &str, text: &str) -> Result<Text, AllocError>
    ensures { IfOk result (λ made. made ≡ words.now ++ quoted text.now) }
{
    let spelt = quoted(alloc, text)?;
    text_after(alloc, words, spelt.as_str())
}
