// Whether the blocks of a net are of their kinds, found by looking at each of them.
ghost use Rattle.std.specs.Prelude.{◌≡◌, ◌+◌, ◌<◌, ◌≤◌, ℕ, true, length, Some, slice_get};
ghost use Rattle.cdl_kinds.specs.Conditions.{Keeps};
ghost use Rattle.cdl_kinds.specs.Ports.{port_row};
ghost use Rattle.cdl_connect.specs.WellFormed.{AreOfKinds, ArePlain, FitsBody, HasPorts, IsPort, is_plain};
ghost use Rattle.cdl_run_tests.specs.Kept.{AreKept, IsKept};

use cdl_connect::{Body, Net, NetElement, NetInstance};
use cdl_kinds::{Kind, Params, Port, port, port_count};
use cdl_values::ValueType;

fn is_same(a: ValueType, b: ValueType) -> bool
    ensures { result ≡ true → a ≡ b }
{
    match (a, b) {
        (ValueType::Boolean, ValueType::Boolean) => true,
        (ValueType::Integer, ValueType::Integer) => true,
        (ValueType::Real, ValueType::Real) => true,
        _ => false,
    }
}

fn is_same_way(a: bool, b: bool) -> bool
    ensures { result ≡ true → a ≡ b }
{
    match (a, b) {
        (true, true) => true,
        (false, false) => true,
        _ => false,
    }
}

fn is_named(element: &NetElement, port: &Port) -> bool
    ensures { result ≡ true → element.now.name ≡ port.now.name.now }
{
    element.name.bytes() == port.name.as_bytes()
}

// Whether the element is the port; false where the port has an index.
#[tactic(auto, using(crate::proofs::Keeping::port_is))]
fn is_port(element: &NetElement, port: Port) -> bool
    ensures { result ≡ true → IsPort (port_row port) element.now }
{
    if port.index != 0
        || !is_same(element.value_type, port.value_type)
        || !is_same_way(element.input, port.input)
    {
        return false;
    }
    is_named(element, &port)
}

fn has_ports(net: &Net, t: &NetInstance, kind: Kind, params: &Params) -> bool
    requires { Keeps kind params.now }
    ensures { result ≡ true → HasPorts net.now t.now kind params.now }
{
    let elements = net.elements.items();
    let first = t.first as usize;
    let count = t.count as usize;
    if port_count(kind, params) != count || elements.len() < first + count {
        return false;
    }
    for j in 0..count {
        if !is_port(&elements[first + j], port(kind, params, j)) {
            return false;
        }
    }
    true
}

fn is_of_kind(net: &Net, t: &NetInstance) -> bool
    requires { IsKept t.now.body }
    ensures { result ≡ true → FitsBody net.now t.now t.now.body }
{
    match &t.body {
        Body::Composite => true,
        Body::Elementary { kind, params } => has_ports(net, t, *kind, params),
    }
}

/// Whether each block has the ports of its kind. It is never true where one has not.
pub fn are_of_kinds(net: &Net) -> bool
    requires { AreKept net.now.instances }
    ensures { result ≡ true → AreOfKinds net.now }
{
    let instances = net.instances.items();
    for i in 0..instances.len() {
        if !is_of_kind(net, &instances[i]) {
            return false;
        }
    }
    true
}

fn is_plain(value_type: ValueType) -> bool
    ensures { result ≡ is_plain value_type }
{
    match value_type {
        ValueType::Boolean => true,
        ValueType::Integer => true,
        ValueType::Real => true,
        _ => false,
    }
}

/// Whether each element is Boolean, Integer or Real. It is never true where one is not.
pub fn are_plain(net: &Net) -> bool
    ensures { result ≡ true → ArePlain net.now }
{
    let elements = net.elements.items();
    for x in 0..elements.len() {
        if !is_plain(elements[x].value_type) {
            return false;
        }
    }
    true
}
