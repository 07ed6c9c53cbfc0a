//! The entries of a new handle; Specification: Handles.
ghost use Rattle.std.specs.Prelude.{◌≡◌, ◌+◌};
ghost use Rattle.machine.specs.Lent.{tables_of, SameTables};
ghost use Rattle.machine.specs.Private.Accept.{HaveEntries, table_entries_of, with_new_entry};

use super::kind::Kind;
use super::lent::Tables;
use protocols::shares::Shares;

impl Tables<'_> {
    // Writes shares and kind to the position `at` of tables and kind list, if there is a new value (`values` is 1).
    #[inline(always)]
    #[tactic(auto, unfolding(crate::specs::Private::Accept::with_new_entry))]
    pub(crate) fn store(&mut self, values: usize, at: usize, s: Shares, kind: Kind)
        requires { HaveEntries (at + values) (tables_of self.old) self.old.kinds.now }
        ensures same { SameTables self.old self.new }
        ensures stored { table_entries_of self.new
            ≡ with_new_entry values at s kind (tables_of self.old) self.old.kinds.now }
    {
        if values == 0 {
            return;
        }
        self.one[at] = s.one;
        self.two[at] = s.two;
        self.three[at] = s.three;
        self.kinds[at] = u32::from(kind);
    }
}
