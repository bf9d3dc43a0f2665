//! The trees of items.

ghost use Rattle.std.specs.Prelude.{◌≡◌, ◌+◌, ◌<◌, ◌^◌, length, nat_eq, option_copied, slice_get, IfOk};
ghost use Rattle.sc_sexpr.specs.Shapes.{shape, line_of_shape};
ghost use Rattle.sc_sexpr.specs.Trees.{IsItem, Tokens, place_of, mark_of, marks, Puts, Takes, Fits};

use crate::splitter::Memory;
use sc_text::{Kind, Lexer, Next, Token};
use std::alloc::Global;

/// The tree of an item: a token that is no parenthesis, or a list of trees.
#[cycle(tree)]
#[derive(Debug, Drop)]
pub enum Tree<'a> {
    Leaf(Token<'a>),
    List(Items<'a>),
}

/// A list of trees, and the line of its opening parenthesis.
#[cycle(tree)]
#[derive(Debug, Drop)]
pub struct Items<'a> {
    /// The trees, in order.
    pub trees: Vec<Tree<'a>>,
    /// The line of the opening parenthesis.
    pub line: u64,
}

impl<'a> Items<'a> {
    /// The line of the opening parenthesis.
    pub fn line(&self) -> u64
        ensures { result ≡ self.now.line }
    {
        self.line
    }

    /// How many trees there are.
    pub fn len(&self) -> usize
        ensures { result ≡ length self.now.trees.items }
    {
        self.trees.len()
    }

    /// Whether there is no tree, as in `()`.
    pub fn is_empty(&self) -> bool
        ensures { result ≡ nat_eq (length self.now.trees.items) 0 }
    {
        self.trees.is_empty()
    }

    /// The trees, in order.
    pub fn as_slice(&self) -> &[Tree<'a>]
        ensures { result.now ≡ self.now.trees.items }
    {
        self.trees.as_slice()
    }

    /// The tree at an index from 0; `None` exactly past the end.
    pub fn get(&self, index: usize) -> Option<&Tree<'a>>
        ensures { option_copied result ≡ slice_get self.now.trees.items index }
    {
        self.trees.get(index)
    }
}

impl Tree<'_> {
    /// The line of the first token.
    pub fn line(&self) -> u64
        ensures { result ≡ line_of_shape (shape self.now) }
    {
        match self {
            Tree::Leaf(token) => token.line,
            Tree::List(items) => items.line,
        }
    }
}

/// Puts a tree at the end of the innermost of the open lists, or gives it back where none is lists.
fn put<'a>(lists: &mut Vec<Items<'a>>, tree: Tree<'a>) -> Result<Option<Tree<'a>>, Memory>
    ensures { IfOk result (λ found. Puts lists.old.items (marks tree.entry) found lists.new.items) }
{
    let Some(mut items) = lists.pop() else {
        return Ok(Some(tree));
    };
    if items.trees.push(tree).is_err() || lists.push(items).is_err() {
        return Err(Memory);
    }
    Ok(None)
}

/// Takes the next token. The tree, where it ends one outside of every list.
fn take<'a>(
    alloc: Global,
    lists: &mut Vec<Items<'a>>,
    token: Token<'a>,
) -> Result<Option<Tree<'a>>, Memory>
    requires { Fits (length lists.old.items) (mark_of token) }
    ensures { IfOk result (λ found. Takes lists.old.items (mark_of token.entry) found lists.new.items) }
{
    match token.kind {
        Kind::Left => {
            let items = Items {
                trees: Vec::new(alloc),
                line: token.line,
            };
            if lists.push(items).is_err() {
                return Err(Memory);
            }
            Ok(None)
        }
        Kind::Right => match lists.pop() {
            Some(items) => put(lists, Tree::List(items)),
            None => unreachable!(),
        },
        _ => put(lists, Tree::Leaf(token)),
    }
}

/// The tree of an item, whose first token has this line. Its tokens borrow from the text, and their
/// places are counted from its first byte.
///
/// It takes memory for the lists, and goes no deeper into the stack for deep ones.
pub fn read_tree<'a>(alloc: Global, text: &'a [u8], line: u64) -> Result<Tree<'a>, Memory>
    requires fits { line + length text.now < 2 ^ 64 }
    requires item { IsItem text.now line }
    ensures { IfOk result (λ tree. Tokens (place_of text.now line) (marks tree)) }
{
    let mut lexer = Lexer::over(text, 0, line, true);
    let mut lists = Vec::new(alloc);
    loop {
        let Next::Token(token) = lexer.next() else {
            unreachable!();
        };
        match take(alloc, &mut lists, token) {
            Err(error) => return Err(error),
            Ok(Some(tree)) => return Ok(tree),
            Ok(None) => {}
        }
    }
}
