ghost use Rattle.std.specs.Prelude.{◌<◌, ◌^◌};
ghost use Rattle.std.specs.Char.{IsScalar};
ghost use Rattle.std.specs.Option.{SomeIff};
ghost use Rattle.std.specs.Str.Parse.{IsNumeral, digits_value};

/// The character whose code point the word is, in hexadecimal digits.
pub(crate) fn code_point(word: &str) -> Option<char>
    ensures { SomeIff result (IsNumeral 16 word.now × IsScalar (digits_value 16 word.now)) (digits_value 16 word.now) }
{
    if word.starts_with('+') {
        return None;
    }
    let number = u32::from_str_radix(word, 16).ok()?;
    char::from_u32(number)
}
