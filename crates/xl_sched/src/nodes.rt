ghost use Rattle.std.specs.Prelude.{◌≡◌, ◌++◌, ◌∷◌, [], true, IfOk, OnOk, OnErr};
ghost use Rattle.xl_lists.specs.Lists.{is_on};
ghost use Rattle.xl_sched.specs.Members.{declared_of};

use crate::fault::{Cause, LineFault};
use crate::members::member;
use std::alloc::{AllocError, Global};
use std::marker::Model;
use xl_base::NodeNo;

/// Declared nodes, the honest ones or the liars, in the order of their declaration. Contracts see them as a list of
/// numbers.
#[derive(Drop)]
pub struct Nodes {
    numbers: Vec<NodeNo>,
}

impl Model for Nodes {
    ghost use Rattle.std.specs.Prelude.{ℕ, List};

    ghost Value = { List ℕ };

    ghost view = { λ nodes. nodes.numbers.items };
}

impl Nodes {
    pub fn new(alloc: Global) -> Self
        ensures { result ≡ [] }
    {
        Nodes {
            numbers: Vec::new(alloc),
        }
    }

    pub fn has(&self, node: NodeNo) -> bool
        ensures { result ≡ is_on self.now node }
    {
        self.numbers.iter().any(|number| node == *number)
    }

    /// A node that is declared.
    pub fn declared<'a>(&self, token: &'a [u8]) -> Result<NodeNo, LineFault<'a>>
        ensures value { result ≡ declared_of self.now token.now }
        ensures declared { IfOk result (λ node. is_on self.now node ≡ true) }
    {
        let node = member(token)?;
        if self.has(node) {
            Ok(node)
        } else {
            Err(LineFault::with_text(Cause::Absent, token))
        }
    }

    pub fn declare(&mut self, node: NodeNo) -> Result<(), AllocError>
        ensures declared { OnOk result (self.new ≡ self.old ++ node ∷ []) }
        ensures kept { OnErr result (self.new ≡ self.old) }
    {
        self.numbers.push(node)?;
        Ok(())
    }
}
