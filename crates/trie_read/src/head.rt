// Reading the first node of some bytes.
ghost use Rattle.std.specs.Prelude.{◌≡◌, Ok, IfSome, length, option_map};
ghost use Rattle.std.specs.Iterator.{at_most};
ghost use Rattle.trie_theory.specs.Forest.{Forest};
ghost use Rattle.trie_theory.specs.Encode.{Regular, encode};
ghost use Rattle.trie_read.specs.Kinds.{kind_of_byte};
ghost use Rattle.trie_read.specs.Heads.{head_of, head_in, head_told, InBytes, Stands, NextNode};

use crate::kind::Kind;
use crate::sizes::{BODY_LENGTH_AT, HEAD_SIZE};
use buffer::numbers::get32;
use std::error::Error;
use std::fmt;

// No node, or no suffix, begins here.
#[derive(Clone, Copy, Debug, PartialEq, Eq)]
pub struct Malformed;

impl fmt::Display for Malformed {
    fn fmt<W: fmt::Write>(&self, f: &mut fmt::Formatter<W>) -> fmt::Result {
        f.write_str("no node or suffix begins here")
    }
}

impl Error for Malformed {}

// A node where it is read: the byte of its kind, its strings, its body, and the bytes of its later siblings. The kind is made of the byte where it is asked
// for: a search passes over most nodes without, and would be 5 % slower with it. The strings are two fields, as in Suffix and Key: of the 29 pairs that
// library code hands on, nine are cut out at the call and nine are two fields of one of these, so a struct of both would be made there and taken apart again.
#[derive(Clone, Copy, Debug)]
pub struct Node<'a> {
    pub byte: u8,
    pub value: &'a [u8],
    pub path: &'a [u8],
    pub body: &'a [u8],
    pub rest: &'a [u8],
}

impl Node<'_> {
    pub fn kind(&self) -> Kind
        ensures { result ≡ kind_of_byte self.now.byte }
    {
        Kind::from(self.byte)
    }
}

// The first of tries side by side; `Ok(None)` where there are no bytes.
#[inline]
pub fn read_head(t: &[u8]) -> Result<Option<Node<'_>>, Malformed>
    ensures inside { InBytes t.now result }
    ensures value { (f : Forest) → Regular 2 f → t.now ≡ encode f → head_told result ≡ Ok (head_of f) }
{
    if t.is_empty() {
        return Ok(None);
    }
    if t.len() < HEAD_SIZE {
        return Err(Malformed);
    }
    let path = HEAD_SIZE + usize::from(t[1]);
    let body = path + usize::from(t[2]);
    let next = body + get32(t, BODY_LENGTH_AT) as usize;
    if t.len() < next {
        return Err(Malformed);
    }
    Ok(Some(Node {
        byte: t[0],
        value: &t[HEAD_SIZE..path],
        path: &t[path..body],
        body: &t[body..next],
        rest: &t[next..],
    }))
}

// The same for walks, which end where no node begins, whatever the bytes there are.
#[inline]
pub fn first_node(t: &[u8]) -> Option<Node<'_>>
    ensures inside { IfSome result (λ n. Stands t.now n) }
    ensures value { (f : Forest) → Regular 2 f → t.now ≡ encode f → option_map head_in result ≡ head_of f }
{
    read_head(t).unwrap_or(None)
}

// The nodes side by side, one after another; they end where no node begins, whatever the bytes there are. Suffixes is a type of its own: one generic iterator
// would need a trait with laws over forests and over lists of keys, which is longer than the two.
#[derive(Drop)]
pub struct Nodes<'a>(pub &'a [u8]);

impl<'a> Iterator for Nodes<'a> {
    type Item = Node<'a>;

    ghost next_gives = { λ s r t. NextNode s.0.now r t.0.now };

    ghost remaining = { λ s. at_most (length s.0.now) };

    #[inline]
    fn next(&mut self) -> Option<Node<'a>> {
        let node = first_node(self.0)?;
        self.0 = node.rest;
        Some(node)
    }
}
