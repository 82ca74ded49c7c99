// Words as texts.
ghost use Rattle.std.specs.Prelude.{◌≡◌, All, IsUtf8, IfOk, IfSome, IfNone};
ghost use Rattle.command_words.specs.Lines.{plain_texts};

use chk_base::text::Text;
use std::alloc::{AllocError, Global};

fn text_of(word: &Text) -> Option<&str>
    ensures found { IfSome result (λ text. text.now ≡ word.now) }
    ensures yes { IfSome result (λ text. IsUtf8 word.now) }
    ensures none { IfNone result (IsUtf8 word.now → ⊥) }
{
    str::from_utf8(word.as_bytes()).ok()
}

/// The words as texts; None where one isn't UTF-8.
pub fn texts_of(alloc: Global, words: &[Text]) -> Result<Option<Vec<&str>>, AllocError>
    ensures same { IfOk result (λ found. IfSome found (λ texts. plain_texts texts.items ≡ words.now)) }
    ensures all { IfOk result (λ found. IfSome found (λ texts. All IsUtf8 words.now)) }
    ensures none { IfOk result (λ found. IfNone found (All IsUtf8 words.now → ⊥)) }
{
    let mut texts = Vec::new(alloc);
    for word in words {
        let Some(text) = text_of(word) else {
            return Ok(None);
        };
        texts.push(text)?;
    }
    Ok(Some(texts))
}
