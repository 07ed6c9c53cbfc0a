//! What a command's protocol works on; Specification: Accepted commands.
ghost use Rattle.std.specs.Prelude.{◌≡◌, ◌+◌, ◌≤◌, length};
ghost use Rattle.machine.specs.Lent.{shares_at, tables_of};
ghost use Rattle.machine.specs.Command.{arguments};
ghost use Rattle.machine.specs.Private.Accept.{IfHandle, HasEntry, Serves};

use super::code::Command;
use super::lent::Tables;
use super::row::{Row, Use};
use protocols::place::Place;
use protocols::shares::Shares;

/// What a protocol works on. A command uses the parts that its `Row` names.
#[derive(Clone, Copy)]
pub struct Arguments {
    /// The next input, for store.
    pub input: u32,
    /// The shares of the handle in field a.
    pub u: Shares,
    /// The shares of the handle in field b.
    pub v: Shares,
}

impl Tables<'_> {
    // The shares of the handle in a field, if it is one.
    #[inline(always)]
    fn operand(&self, field: Use, h: u32) -> Shares
        requires { IfHandle field (HasEntry (tables_of self.now) h) }
        ensures { IfHandle field (result ≡ shares_at (tables_of self.now) h) }
    {
        match field {
            Use::Handle => self.shares(h),
            _ => Shares::default(),
        }
    }

    // The parts that the command's row names; the others are 0.
    #[inline(always)]
    pub(crate) fn arguments(&self, x: Row, c: Command, p: Place, inputs: &[u32]) -> Arguments
        requires inputs { p.inputs + x.inputs ≤ length inputs.now }
        requires a { IfHandle x.a (HasEntry (tables_of self.now) c.a) }
        requires b { IfHandle x.b (HasEntry (tables_of self.now) c.b) }
        ensures { Serves x result (arguments (tables_of self.now) inputs.now p c) }
    {
        let input = if x.inputs == 0 { 0 } else { inputs[p.inputs] };
        Arguments {
            input,
            u: self.operand(x.a, c.a),
            v: self.operand(x.b, c.b),
        }
    }
}
