//! Error lines.

ghost use Rattle.std.specs.Prelude.{◌≡◌, ◌++◌, if◌then◌else◌, is_ok};
ghost use Rattle.sc_print.specs.Spelling.{code_text, error_with, spelt_error};
ghost use Rattle.sc_text.specs.declared.code.Code.TheVariants.{E16};

use crate::append::append;
use crate::memory::Memory;
use itoa::Buffer;
use sc_text::Code;

/// Appends the line of an error with this text.
fn fixed(out: &mut Vec<u8>, line: u64, text: &str) -> Result<(), Memory>
    ensures { out.new.items ≡ (if is_ok result then out.old.items ++ error_with line text.now else out.old.items) }
{
    let mut buffer = Buffer::new();
    let line = buffer.format(line).as_bytes();
    let pieces: [&[u8]; 5] = [b"(error \"line ", line, b": ", text.as_bytes(), b"\")\n"];
    append(out, &pieces)
}

/// Appends the line of the error that the limit of this number was passed.
fn limit_passed(out: &mut Vec<u8>, line: u64, limit: u64) -> Result<(), Memory>
    ensures { out.new.items ≡ (if is_ok result then out.old.items ++ error_with line (code_text (E16 limit)) else out.old.items) }
{
    let mut line_buffer = Buffer::new();
    let line = line_buffer.format(line).as_bytes();
    let mut limit_buffer = Buffer::new();
    let limit = limit_buffer.format(limit).as_bytes();
    let pieces: [&[u8]; 5] = [
        b"(error \"line ",
        line,
        b": E16 limit ",
        limit,
        b" passed\")\n",
    ];
    append(out, &pieces)
}

/// Appends the line of an error, `(error "line L: Ek text")` and a line feed, where L is the line
/// of the script, and k and the text are those of the code ([`Code`] lists them).
///
/// SMT-LIB 2.6 gives `(error ..)` with a string literal as the response to an erroneous command, and
/// leaves its text free. With [`Memory`] nothing is appended.
pub fn error_line(out: &mut Vec<u8>, line: u64, code: Code) -> Result<(), Memory>
    ensures { out.new.items ≡ (if is_ok result then out.old.items ++ spelt_error line code else out.old.items) }
{
    match code {
        Code::E1 => fixed(out, line, "E1 lexical fault"),
        Code::E2 => fixed(out, line, "E2 unmatched parenthesis"),
        Code::E3 => fixed(out, line, "E3 input ends inside a command"),
        Code::E4 => fixed(out, line, "E4 unknown command"),
        Code::E5 => fixed(out, line, "E5 malformed command"),
        Code::E6 => fixed(out, line, "E6 unknown symbol"),
        Code::E7 => fixed(out, line, "E7 wrong sort or number of arguments"),
        Code::E8 => fixed(out, line, "E8 outside the profile"),
        Code::E9 => fixed(out, line, "E9 name already declared or reserved"),
        Code::E10 => fixed(out, line, "E10 number too wide"),
        Code::E11 => fixed(out, line, "E11 non-linear product"),
        Code::E12 => fixed(out, line, "E12 pop below the first level"),
        Code::E13 => fixed(out, line, "E13 no model"),
        Code::E14 => fixed(out, line, "E14 no proof"),
        Code::E16(limit) => limit_passed(out, line, limit),
    }
}
