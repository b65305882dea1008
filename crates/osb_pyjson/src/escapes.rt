ghost use Rattle.std.specs.Prelude.{◌≡◌, ◌++◌, ◌%◌, OnOk, string_bytes};
ghost use Rattle.std.specs.Char.{digit_char};
ghost use Rattle.std.specs.Char.Escape.{encode_utf16};
ghost use Rattle.std.specs.List.{flat_map};
ghost use Rattle.osb_pyjson.specs.PyText.{unit_escape, py_char};

use osb_tree::NoMemory;

fn hex_digit(number: u16) -> char
    ensures { result ≡ digit_char (number % 16) }
{
    let digit = (number % 16) as u8;
    char::from(if digit < 10 {
        b'0' + digit
    } else {
        b'a' - 10 + digit
    })
}

fn write_unit(out: &mut String, unit: u16) -> Result<(), NoMemory>
    ensures { OnOk result (string_bytes out.new ≡ string_bytes out.old ++ unit_escape unit) }
{
    out.push_str("\\u")?;
    out.push(hex_digit(unit / 4096))?;
    out.push(hex_digit(unit / 256))?;
    out.push(hex_digit(unit / 16))?;
    out.push(hex_digit(unit))
}

fn write_units(out: &mut String, c: char) -> Result<(), NoMemory>
    ensures { OnOk result (string_bytes out.new
        ≡ string_bytes out.old ++ flat_map unit_escape (encode_utf16 c)) }
{
    let mut buffer = [0u16; 2];
    let units = c.encode_utf16(&mut buffer);
    for unit in units.iter() {
        write_unit(out, *unit)?;
    }
    Ok(())
}

pub fn write_char(out: &mut String, c: char) -> Result<(), NoMemory>
    ensures { OnOk result (string_bytes out.new ≡ string_bytes out.old ++ py_char c) }
{
    match c {
        '"' => out.push_str("\\\""),
        '\\' => out.push_str("\\\\"),
        '\n' => out.push_str("\\n"),
        '\r' => out.push_str("\\r"),
        '\t' => out.push_str("\\t"),
        '\u{8}' => out.push_str("\\b"),
        '\u{c}' => out.push_str("\\f"),
        ' '..='~' => out.push(c),
        _ => write_units(out, c),
    }
}
