ghost use Rattle.std.specs.Prelude.{◌≡◌, ◌<◌, ◌↔◌, [], ◌∷◌, false, map, length, MatchOption, IsNone, IfSome};
ghost use Rattle.std.specs.List.{list_any, before_first, after_first};
ghost use Rattle.std.specs.String.{string_bytes};
ghost use Rattle.ooo_words.specs.Reading.{is_equals, settings_of};
ghost use Rattle.ooo_words.specs.Written.{setting_of};

/// An option as it is written, and its value, if a word is left for it.
#[derive(Clone, Copy)]
pub struct Written<'a> {
    pub option: &'a str,
    pub value: Option<&'a str>,
}

/// The first setting that the words make, and the words after it.
pub fn first_setting(words: &[String]) -> Option<(Written<'_>, &[String])>
    ensures exact { MatchOption result (words.now ≡ []) (λ found.
        settings_of (map string_bytes words.now)
        ≡ setting_of found.0 ∷ settings_of (map string_bytes found.1.now)) }
    ensures shorter { MatchOption result (words.now ≡ [])
        (λ found. length found.1.now < length words.now) }
{
    let (word, rest) = words.split_first()?;
    let option = word.as_str();
    if let Some((option, value)) = cut(option) {
        let value = Some(value);
        return Some((Written { option, value }, rest));
    }
    match rest.split_first() {
        Some((next, rest)) => {
            let value = Some(next.as_str());
            Some((Written { option, value }, rest))
        }
        None => {
            let value = None;
            Some((Written { option, value }, rest))
        }
    }
}

/// What stands before and after the first `=` of a word.
fn cut(word: &str) -> Option<(&str, &str)>
    ensures none { IsNone result ↔ (list_any is_equals word.now ≡ false) }
    ensures before { IfSome result (λ parts. parts.0.now ≡ before_first is_equals word.now) }
    ensures after { IfSome result (λ parts. parts.1.now ≡ after_first is_equals word.now) }
{
    word.split_once('=')
}
