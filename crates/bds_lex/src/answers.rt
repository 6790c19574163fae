//! Whether a `:` is a case colon, within each bracket that is open.

ghost use Rattle.std.specs.Prelude.{◌≡◌, [], ◌∷◌, false, OnOk, OnErr};
ghost use Rattle.bds_tree.specs.lexing.LineEnds.{answer, without_inner, is_first_true};

use bds_value::NoMemory;
use std::alloc::Global;
use std::marker::Model;

/// An answer for each open bracket, and one outside all of them; contracts see the innermost first.
#[derive(Drop)]
pub struct Answers {
    /// The innermost.
    inner: bool,
    /// The others, with the innermost last.
    outer: Vec<bool>,
}

impl Model for Answers {
    ghost use Rattle.std.specs.Prelude.{List, ◌∷◌, Bool, reverse};

    ghost Value = { List Bool };

    ghost view = { λ a. a.inner ∷ reverse a.outer.items };
}

impl Answers {
    /// Outside all brackets.
    pub fn new(alloc: Global) -> Answers
        ensures { result ≡ false ∷ [] }
    {
        Answers {
            inner: false,
            outer: Vec::new(alloc),
        }
    }

    /// Whether the next `:` is a case colon.
    pub fn is_case_colon(&self) -> bool
        ensures { result ≡ is_first_true self.now }
    {
        self.inner
    }

    /// Another answer for the innermost bracket.
    pub fn set(&mut self, now: bool)
        ensures { self.new ≡ answer now self.old }
    {
        self.inner = now;
    }

    /// An answer for a bracket that opens.
    pub fn open(&mut self) -> Result<(), NoMemory>
        ensures ok { OnOk result (self.new ≡ false ∷ self.old) }
        ensures err { OnErr result (self.new ≡ self.old) }
    {
        match self.outer.push(self.inner) {
            Ok(()) => {
                self.inner = false;
                Ok(())
            }
            Err(_) => Err(NoMemory),
        }
    }

    /// The innermost bracket is closed, if so.
    pub fn close_if(&mut self, closed: bool)
        ensures { self.new ≡ without_inner closed self.old }
    {
        if closed {
            if let Some(outer) = self.outer.pop() {
                self.inner = outer;
            }
        }
    }
}
