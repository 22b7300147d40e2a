// The check of a net.
ghost use Rattle.std.specs.Prelude.{◌≡◌, ◌+◌, ◌<◌, ◌≤◌, ◌^◌, ◌==◌, ℕ, List, length, IfSome, IfNone, IfOk, IfErr, OnOk, OnErr, get_or, slice_get};
ghost use Rattle.std.specs.Option.{option_map};
ghost use Rattle.cdl_network.specs.Lists.{count};
ghost use Rattle.cdl_network.specs.Rules.{is_some_same, is_source, is_sink, sink_of, source_of, same_type, has_unit, units_differ, wire_fault, is_wanted, fault_by};
ghost use Rattle.cdl_connect.specs.Nets.{parent_of, network_of, wire_in};
ghost use Rattle.cdl_connect.specs.WellFormed.{IsIndexed};
ghost use Rattle.cdl_connect.specs.Faults.{FineWires, IsChecked, IsFault, IsUnbroken};
ghost use Rattle.cdl_connect.specs.inner.Numbers.{wire_rule, sink_rule, fault_at_wire, fault_at_element, endings};

use crate::faults::{NetFault, NetRefusal, SinkFault, WireFault};
use crate::net::{Body, Net, RawWire};
use cdl_values::ValueType;
use std::alloc::{AllocError, Global};
use std::marker::Model;

/// A net whose wires and elements break no rule: each sink has exactly one source. Contracts see it as the net.
#[derive(Debug, Drop)]
pub struct CheckedNet {
    net: Net,
}

impl Model for CheckedNet {
    ghost use Rattle.std.specs.Coded.{codes};
    ghost use Rattle.cdl_connect.specs.declared.net.Net.{Net as NetOf};
    ghost use Rattle.cdl_connect.specs.contracts.net.Net as net_row;
    ghost use Rattle.cdl_connect.specs.Faults.{IsChecked};

    ghost Value = { NetOf };

    ghost coded = { Prim.hlevel (codes, net_row.the_row.coded) };

    ghost view = { λ c. c.net };

    ghost invariant = { λ c. IsChecked c.net };
}

// Whether the instance is a part of the scope.
fn is_child(net: &Net, scope: u32, instance: u32) -> bool
    ensures { result ≡ is_some_same (λ i j. i == j) scope (parent_of (slice_get net.now.instances instance)) }
{
    match net.instances.items().get(instance as usize) {
        Some(found) => match found.parent {
            Some(parent) => parent == scope,
            None => false,
        },
        None => false,
    }
}

// Whether the element is a source of the scope.
fn is_source(net: &Net, scope: u32, x: u32) -> bool
    requires { x < length net.now.elements }
    ensures { result ≡ is_source (network_of net.now) scope x }
{
    let element = &net.elements.items()[x as usize];
    if element.input {
        element.instance == scope
    } else {
        is_child(net, scope, element.instance)
    }
}

// Whether the element is a sink of the scope.
fn is_sink(net: &Net, scope: u32, x: u32) -> bool
    requires { x < length net.now.elements }
    ensures { result ≡ is_sink (network_of net.now) scope x }
{
    let element = &net.elements.items()[x as usize];
    if element.input {
        is_child(net, scope, element.instance)
    } else {
        element.instance == scope
    }
}

/// The end of a wire that is its sink: the right one where the left is a source of its scope and the right a sink, else the left.
pub fn sink_end(net: &Net, w: &RawWire) -> u32
    requires ends { (w.now.left < length net.now.elements) × (w.now.right < length net.now.elements) }
    ensures end { result ≡ sink_of (network_of net.now) (wire_in w.now) }
    ensures inside { result < length net.now.elements }
{
    if is_source(net, w.scope, w.left) && is_sink(net, w.scope, w.right) {
        w.right
    } else {
        w.left
    }
}

/// The other end: its source, in a checked net.
pub fn source_end(net: &Net, w: &RawWire) -> u32
    requires ends { (w.now.left < length net.now.elements) × (w.now.right < length net.now.elements) }
    ensures end { result ≡ source_of (network_of net.now) (wire_in w.now) }
    ensures inside { result < length net.now.elements }
{
    let forth = is_source(net, w.scope, w.left) && is_sink(net, w.scope, w.right);
    if forth { w.left } else { w.right }
}

fn same_type(a: ValueType, b: ValueType) -> bool
    ensures { result ≡ same_type a b }
{
    match (a, b) {
        (ValueType::Boolean, ValueType::Boolean) => true,
        (ValueType::Integer, ValueType::Integer) => true,
        (ValueType::Real, ValueType::Real) => true,
        (ValueType::Str, ValueType::Str) => true,
        (ValueType::Enumeration(c), ValueType::Enumeration(d)) => c == d,
        _ => false,
    }
}

// Whether the element is a Real with a unit.
fn has_unit(net: &Net, x: u32) -> bool
    requires { x < length net.now.elements }
    ensures { result ≡ has_unit (network_of net.now) x }
{
    let element = &net.elements.items()[x as usize];
    match element.value_type {
        ValueType::Real => !element.unit.bytes().is_empty(),
        _ => false,
    }
}

// Whether both elements are Reals with a unit, and the units differ.
fn units_differ(net: &Net, x: u32, y: u32) -> bool
    requires { (x < length net.now.elements) × (y < length net.now.elements) }
    ensures { result ≡ units_differ (network_of net.now) x y }
{
    let left = net.elements.items()[x as usize].unit.bytes();
    let right = net.elements.items()[y as usize].unit.bytes();
    has_unit(net, x) && has_unit(net, y) && !(left == right)
}

// The first rule that a wire breaks.
fn broken_wire(net: &Net, w: &RawWire) -> Option<WireFault>
    requires { (w.now.left < length net.now.elements) × (w.now.right < length net.now.elements) }
    ensures { option_map wire_rule result ≡ wire_fault (network_of net.now) (wire_in w.now) }
{
    let forth = is_source(net, w.scope, w.left) && is_sink(net, w.scope, w.right);
    let back = is_source(net, w.scope, w.right) && is_sink(net, w.scope, w.left);
    if !(forth || back) {
        return Some(WireFault::SameSide);
    }
    let left = net.elements.items()[w.left as usize].value_type;
    let right = net.elements.items()[w.right as usize].value_type;
    if !same_type(left, right) {
        return Some(WireFault::TypesDiffer);
    }
    if units_differ(net, w.left, w.right) {
        Some(WireFault::UnitsDiffer)
    } else {
        None
    }
}

// Whether the element is a sink of some scope: no input of the root and no output of an elementary instance.
fn is_wanted(net: &Net, x: u32) -> bool
    requires { x < length net.now.elements }
    ensures { result ≡ is_wanted (network_of net.now) x }
{
    let element = &net.elements.items()[x as usize];
    match net.instances.items().get(element.instance as usize) {
        Some(owner) => {
            if element.input {
                owner.parent.is_some()
            } else {
                matches!(owner.body, Body::Composite)
            }
        }
        None => !element.input,
    }
}

// What is wrong with an element at which so many wires end.
fn broken_sink(wanted: bool, count: usize) -> Option<SinkFault>
    ensures { option_map sink_rule result ≡ fault_by wanted count }
{
    if !wanted {
        return None;
    }
    match count {
        0 => Some(SinkFault::NoSource),
        1 => None,
        _ => Some(SinkFault::ManySources),
    }
}

fn at_wire(fault: WireFault, wire: u32) -> NetFault
    ensures { result ≡ fault_at_wire fault wire }
{
    match fault {
        WireFault::SameSide => NetFault::SameSide { wire },
        WireFault::TypesDiffer => NetFault::TypesDiffer { wire },
        WireFault::UnitsDiffer => NetFault::UnitsDiffer { wire },
    }
}

fn at_element(fault: SinkFault, element: u32) -> NetFault
    ensures { result ≡ fault_at_element fault element }
{
    match fault {
        SinkFault::ManySources => NetFault::ManySources { element },
        SinkFault::NoSource => NetFault::NoSource { element },
    }
}

// The first broken wire, else how many wires end at each element.
fn count_wires(net: &Net, counts: &mut [usize]) -> Option<NetFault>
    requires indexed { IsIndexed net.now }
    requires size { length counts.old ≡ length net.now.elements }
    requires zero { (x : ℕ) → get_or counts.old x 0 ≡ 0 }
    ensures some { IfSome result (λ f. IsFault net.now f) }
    ensures fine { IfNone result (FineWires net.now (length net.now.wires)) }
    ensures counts { IfNone result ((x : ℕ) → x < length net.now.elements → get_or counts.new x 0 ≡ endings net.now net.now.wires x) }
{
    let wires = net.wires.items();
    for k in 0..wires.len() {
        let w = &wires[k];
        match broken_wire(net, w) {
            Some(fault) => return Some(at_wire(fault, k as u32)),
            None => {}
        }
        let end = sink_end(net, w) as usize;
        counts[end] += 1;
    }
    None
}

// The first element that breaks a rule.
fn count_sinks(net: &Net, counts: &[usize]) -> Option<NetFault>
    requires indexed { IsIndexed net.now }
    requires size { length counts.now ≡ length net.now.elements }
    requires fine { FineWires net.now (length net.now.wires) }
    requires counts { (x : ℕ) → x < length net.now.elements → get_or counts.now x 0 ≡ endings net.now net.now.wires x }
    ensures some { IfSome result (λ f. IsFault net.now f) }
    ensures fine { IfNone result (IsUnbroken net.now) }
{
    for x in 0..net.elements.items().len() {
        let element = x as u32;
        match broken_sink(is_wanted(net, element), counts[x]) {
            Some(fault) => return Some(at_element(fault, element)),
            None => {}
        }
    }
    None
}

fn zeros(alloc: Global, n: usize) -> Result<Vec<usize>, AllocError>
    ensures size { IfOk result (λ v. length v.items ≡ n) }
    ensures zero { IfOk result (λ v. (x : ℕ) → get_or v.items x 0 ≡ 0) }
{
    let mut v = Vec::with_capacity(alloc, n)?;
    for _ in 0..n {
        v.push(0)?;
    }
    Ok(v)
}

// The first fault, if there is one.
fn first_fault(net: &Net, alloc: Global) -> Option<NetFault>
    requires indexed { IsIndexed net.now }
    ensures some { IfSome result (λ f. IsFault net.now f) }
    ensures fine { IfNone result (IsUnbroken net.now) }
{
    let Ok(mut counts) = zeros(alloc, net.elements.items().len()) else {
        return Some(NetFault::OutOfMemory);
    };
    match count_wires(net, &mut counts) {
        Some(fault) => Some(fault),
        None => count_sinks(net, &counts),
    }
}

impl Net {
    /// The net, checked, where none of the rules C43, C44, C48, C45 and C46 is broken. Else the net as it was, with the first
    /// broken one: wires in order, C43 before C44 before C48 at one wire, and then elements in order, C45 or C46. For want of
    /// memory the net is handed back too. It needs of a well-formed net only that its numbers are good (`IsIndexed`).
    pub fn check(self, alloc: Global) -> Result<CheckedNet, NetRefusal>
        requires { IsIndexed self }
        ensures same { IfOk result (λ c. c ≡ self) }
        ensures unbroken { OnOk result (IsUnbroken self) }
        ensures back { IfErr result (λ r. r.net ≡ self) }
        ensures fault { IfErr result (λ r. IsFault self r.fault) }
    {
        match first_fault(&self, alloc) {
            None => Ok(CheckedNet { net: self }),
            Some(fault) => Err(NetRefusal { net: self, fault }),
        }
    }
}

impl CheckedNet {
    /// The net that was checked, as it was given. It takes no memory.
    pub fn net(&self) -> &Net
        ensures same { result.now ≡ self.now }
        ensures checked { IsChecked self.now }
    {
        &self.net
    }
}
