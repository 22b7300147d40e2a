// The ports of the kinds by their names.
ghost use Rattle.std.specs.Prelude.{◌≡◌, map};
ghost use Rattle.cdl_kinds.specs.Groups.{group_row};
ghost use Rattle.cdl_kinds.specs.Table.{row};

use crate::kind::Kind;
use crate::ports::Group;
use crate::table::kind_row;

/// The inputs of a kind by their names, in the order of the table.
pub fn input_groups(kind: Kind) -> &'static [Group]
    ensures { map group_row result.now ≡ (row kind).ins }
{
    kind_row(kind).ins
}

/// The outputs of a kind by their names, in the order of the table.
pub fn output_groups(kind: Kind) -> &'static [Group]
    ensures { map group_row result.now ≡ (row kind).outs }
{
    kind_row(kind).outs
}
