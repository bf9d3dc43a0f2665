//! The reader of commands.

ghost use Rattle.std.specs.Prelude.{◌≡◌, map};
ghost use Rattle.std.specs.Result.{result_map_both};
ghost use Rattle.std.specs.Str.{bytes_eq};
ghost use Rattle.std.specs.Vec.Iter.{into_iter_items};
ghost use Rattle.sc_sexpr.specs.Shapes.{shape, shapes_of};
ghost use Rattle.sc_commands.specs.Commands.{seen};
ghost use Rattle.sc_commands.specs.Forms.{command_of, by_form, form_of, action_form_of};

use crate::command::Command;
use crate::forms::{self, Parts};
use sc_sexpr::Tree;
use sc_text::{Code, Kind, is_command, is_left_out_command};

fn is_word(word: &[u8], name: &str) -> bool
    ensures { result ≡ bytes_eq name.now word.now }
{
    name.as_bytes() == word
}

/// The command of this name that declares nothing, with the parts behind its head.
fn action_named<'a>(word: &[u8], parts: Parts<'a>) -> Result<Command<'a>, Code>
    ensures { result_map_both seen (λ e. e) result ≡ by_form (action_form_of word.now) word.now (shapes_of (map shape (into_iter_items parts.entry))) }
{
    let command = if is_word(word, "assert") {
        forms::assert(parts)
    } else if is_word(word, "check-sat") {
        forms::check_sat(parts)
    } else if is_word(word, "get-proof") {
        forms::get_proof(parts)
    } else if is_word(word, "echo") {
        forms::echo(parts)
    } else if is_word(word, "exit") {
        forms::exit(parts)
    } else if is_command(word) || is_left_out_command(word) {
        return Err(Code::E8);
    } else {
        return Err(Code::E4);
    };
    command.ok_or(Code::E5)
}

/// The command of this name with the parts behind its head.
fn command_named<'a>(word: &[u8], parts: Parts<'a>) -> Result<Command<'a>, Code>
    ensures { result_map_both seen (λ e. e) result ≡ by_form (form_of word.now) word.now (shapes_of (map shape (into_iter_items parts.entry))) }
{
    let command = if is_word(word, "set-logic") {
        forms::set_logic(parts)
    } else if is_word(word, "set-info") {
        forms::set_info(parts)
    } else if is_word(word, "declare-sort") {
        forms::declare_sort(parts)
    } else if is_word(word, "declare-const") {
        forms::declare_const(parts)
    } else if is_word(word, "declare-fun") {
        forms::declare_fun(parts)
    } else {
        return action_named(word, parts);
    };
    command.ok_or(Code::E5)
}

/// The command that a top item of a script is, or the code of its first fault. The shapes are
/// those of SMT-LIB 2.6, "Scripts"; the codes and their order are this program's own:
///
/// - `E5` where the item is no list, or `()`.
/// - `E4` where the list's head is no bare word that names a command of SMT-LIB 2.6. A quoted
///   symbol names none, as in `(|exit|)`.
/// - `E8` where the head names a command that is not done, whatever the parts.
/// - `E5` where the parts behind the head are not those of the command. A name is a symbol: a
///   reserved word is one only between bars. A sort is a symbol or a list, and an arity is a
///   numeral. A term, the inside of a sort that is a list, and the value of `set-info` may be
///   anything. SMT-LIB lets `set-info` have no value; here it has one.
///
/// Nothing is copied and no memory is taken: names, numerals and literals are slices of the text.
pub fn read_command<'a>(tree: Tree<'a>) -> Result<Command<'a>, Code>
    ensures { result_map_both seen (λ e. e) result ≡ command_of (shape tree.entry) }
{
    let Tree::List(items) = tree else {
        return Err(Code::E5);
    };
    let mut parts = items.trees.into_iter();
    match parts.next() {
        None => Err(Code::E5),
        Some(Tree::Leaf(head)) if head.kind == Kind::Word => command_named(head.text, parts),
        Some(_) => Err(Code::E4),
    }
}
