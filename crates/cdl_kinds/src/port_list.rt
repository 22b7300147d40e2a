// The ports of a block, one by one.
ghost use Rattle.std.specs.Prelude.{◌≡◌, ◌+◌, ◌-◌, ◌^◌, ◌<◌, ◌≤◌, map, length, true, false};
ghost use Rattle.cdl_kinds.specs.Conditions.{Keeps};
ghost use Rattle.cdl_kinds.specs.Ports.{group_size, inputs, outputs, port_among, port_at, port_in, port_row, ports_count};
ghost use Rattle.cdl_kinds.specs.inner.Declared.{group_of};

use crate::kind::Kind;
use crate::params::Params;
use crate::ports::{Group, Port};
use crate::table::kind_row;

// How many ports a group has, where an array has n.
fn size(group: Group, n: usize) -> usize
    ensures { result ≡ group_size n (group_of group) }
{
    if group.many { n } else { 1 }
}

// How many ports these groups have together.
fn count_all(groups: &[Group], n: usize) -> usize
    requires few { length groups.now < 16 }
    requires small { n < 2 ^ 32 }
    ensures count { result ≡ ports_count n (map group_of groups.now) }
    ensures small { result < 2 ^ 40 }
{
    let mut count = 0;
    for group in groups {
        count += size(*group, n);
    }
    count
}

// The port of that number in its group.
fn port_in(group: Group, i: usize, input: bool, direct: bool) -> Port
    requires { i < 2 ^ 32 - 1 }
    ensures { port_row result ≡ port_in input direct (group_of group) i }
{
    Port {
        name: group.name,
        index: if group.many { i as u32 + 1 } else { 0 },
        value_type: group.value_type,
        input,
        direct,
    }
}

// The port of that number of these groups.
fn port_among(groups: &'static [Group], n: usize, i: usize, input: bool, direct: bool) -> Port
    requires small { n < 2 ^ 32 - 1 }
    requires within { i < ports_count n (map group_of groups.now) }
    ensures { port_row result ≡ port_among input direct n (map group_of groups.now) i }
{
    let mut left = i;
    for group in groups {
        let many = size(*group, n);
        if left < many {
            return port_in(*group, left, input, direct);
        }
        left -= many;
    }
    unreachable!()
}

/// How many ports a block of the kind with these parameters has.
pub fn port_count(kind: Kind, params: &Params) -> usize
    requires { Keeps kind params.now }
    ensures { result ≡ (inputs kind params.now).count + (outputs kind params.now).count }
{
    let row = kind_row(kind);
    let n = params.size();
    count_all(row.ins, n) + count_all(row.outs, n)
}

/// The port of that number, counted from 0: first the inputs, then the outputs, each in the order of the table.
pub fn port(kind: Kind, params: &Params, i: usize) -> Port
    requires keeps { Keeps kind params.now }
    requires within { i < (inputs kind params.now).count + (outputs kind params.now).count }
    ensures row { port_row result ≡ port_at kind params.now i }
    ensures input { i < (inputs kind params.now).count → (result.input ≡ true) × (result.value_type ≡ (inputs kind params.now).value_type i) × (result.direct ≡ (inputs kind params.now).direct i) }
    ensures output { (inputs kind params.now).count ≤ i → (result.input ≡ false) × (result.value_type ≡ (outputs kind params.now).value_type (i - (inputs kind params.now).count)) }
{
    let row = kind_row(kind);
    let n = params.size();
    let count = count_all(row.ins, n);
    if i < count {
        port_among(row.ins, n, i, true, row.direct)
    } else {
        port_among(row.outs, n, i - count, false, false)
    }
}
