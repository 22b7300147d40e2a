// Whether the numbers of a net are good, found by looking at each of them.
ghost use Rattle.std.specs.Prelude.{◌≡◌, ◌+◌, ◌<◌, ◌≤◌, ℕ, true, false, length, IfSome, Some, slice_get};
ghost use Rattle.cdl_connect.specs.declared.net.RawWire.{RawWire as RawWireOf};
ghost use Rattle.cdl_connect.specs.declared.net.NetInstance.{NetInstance as NetInstanceOf};
ghost use Rattle.cdl_connect.specs.Nets.{element, is_block};
ghost use Rattle.cdl_connect.specs.WellFormed.{IsIndexed};
ghost use Rattle.cdl_net_tests.specs.Fine.{AreOwn, AreRising, Begins, Ends, Follows, IsFineInstance, IsFineWire, Owns};

use cdl_connect::{Body, Net, NetInstance, RawWire};
use cdl_source::{MOST_ELEMENTS, MOST_INSTANCES, MOST_WIRES};

// Whether these elements are all the instance's.
fn are_own(net: &Net, i: usize, first: usize, end: usize) -> bool
    requires order { first ≤ end }
    requires within { end ≤ length net.now.elements }
    ensures { result ≡ true → AreOwn net.now i first end }
{
    let elements = net.elements.items();
    for x in first..end {
        if elements[x].instance as usize != i {
            return false;
        }
    }
    true
}

// Whether the element before that place, if there is one, is of an earlier instance.
fn begins(net: &Net, i: usize, first: usize) -> bool
    requires { first ≤ length net.now.elements }
    ensures { result ≡ true → Begins net.now i first }
{
    first == 0 || (net.elements.items()[first - 1].instance as usize) < i
}

// Whether the element in that place, if there is one, is of a later instance.
fn ends(net: &Net, i: usize, end: usize) -> bool
    requires { end ≤ length net.now.elements }
    ensures { result ≡ true → Ends net.now i end }
{
    let elements = net.elements.items();
    end == elements.len() || elements[end].instance as usize > i
}

// Whether the window has the instance's elements and no others. Elements stand by instance, so its neighbours tell.
#[tactic(auto, using(crate::proofs::Indexing::owns_of))]
fn owns(net: &Net, i: usize, t: &NetInstance) -> bool
    requires within { t.now.first + t.now.count ≤ length net.now.elements }
    requires rising { AreRising net.now (length net.now.elements) }
    ensures { result ≡ true → Owns net.now i t.now }
{
    let first = t.first as usize;
    let end = first + t.count as usize;
    begins(net, i, first) && ends(net, i, end) && are_own(net, i, first, end)
}

fn is_fine_parent(net: &Net, t: &NetInstance) -> bool
    ensures { result ≡ true → (p : ℕ) → t.now.parent ≡ Some p → p < length net.now.instances }
{
    match t.parent {
        Some(p) => (p as usize) < net.instances.items().len(),
        None => true,
    }
}

fn is_fine_instance(net: &Net, i: usize, t: &NetInstance) -> bool
    requires { AreRising net.now (length net.now.elements) }
    ensures { result ≡ true → IsFineInstance net.now i t.now }
{
    let within = t.first as usize + t.count as usize <= net.elements.items().len();
    is_fine_parent(net, t) && within && owns(net, i, t)
}

fn are_fine_instances(net: &Net) -> bool
    requires { AreRising net.now (length net.now.elements) }
    ensures { result ≡ true → (i : ℕ) (t : NetInstanceOf) → i < length net.now.instances → slice_get net.now.instances i ≡ Some t → IsFineInstance net.now i t }
{
    let instances = net.instances.items();
    for i in 0..instances.len() {
        if !is_fine_instance(net, i, &instances[i]) {
            return false;
        }
    }
    true
}

fn are_owned(net: &Net) -> bool
    ensures { result ≡ true → (x : ℕ) → x < length net.now.elements → (element net.now x).instance < length net.now.instances }
{
    let elements = net.elements.items();
    for x in 0..elements.len() {
        if elements[x].instance as usize >= net.instances.items().len() {
            return false;
        }
    }
    true
}

// Whether the element is of no earlier instance than the one before it.
fn follows(net: &Net, x: usize) -> bool
    requires { x < length net.now.elements }
    ensures { result ≡ true → Follows net.now x }
{
    let elements = net.elements.items();
    x == 0 || elements[x - 1].instance <= elements[x].instance
}

// Whether elements stand by instance.
#[tactic(auto, using(crate::proofs::Indexing::rising_more))]
fn are_rising(net: &Net) -> bool
    ensures { result ≡ true → AreRising net.now (length net.now.elements) }
{
    for x in 0..net.elements.items().len() {
        if !follows(net, x) {
            return false;
        }
    }
    true
}

fn is_composite(body: &Body) -> bool
    ensures { result ≡ true → is_block body.now ≡ false }
{
    matches!(body, Body::Composite)
}

fn is_fine_wire(net: &Net, w: &RawWire) -> bool
    ensures { result ≡ true → IsFineWire net.now w.now }
{
    let count = net.elements.items().len();
    let ends = (w.left as usize) < count && (w.right as usize) < count;
    match net.instances.items().get(w.scope as usize) {
        Some(scope) => ends && is_composite(&scope.body),
        None => false,
    }
}

fn are_fine_wires(net: &Net) -> bool
    ensures { result ≡ true → (k : ℕ) (w : RawWireOf) → k < length net.now.wires → slice_get net.now.wires k ≡ Some w → IsFineWire net.now w }
{
    let wires = net.wires.items();
    for k in 0..wires.len() {
        if !is_fine_wire(net, &wires[k]) {
            return false;
        }
    }
    true
}

fn are_few(net: &Net) -> bool
    ensures { result ≡ true → (length net.now.instances ≤ MOST_INSTANCES) × (length net.now.elements ≤ MOST_ELEMENTS) × (length net.now.wires ≤ MOST_WIRES) }
{
    net.instances.items().len() <= MOST_INSTANCES as usize
        && net.elements.items().len() <= MOST_ELEMENTS as usize
        && net.wires.items().len() <= MOST_WIRES as usize
}

/// The net, where its numbers are good.
pub fn indexed(net: Net) -> Option<Net>
    ensures same { IfSome result (λ n. n ≡ net) }
    ensures good { IfSome result (λ n. IsIndexed n) }
{
    if are_few(&net)
        && are_owned(&net)
        && are_rising(&net)
        && are_fine_instances(&net)
        && are_fine_wires(&net)
    {
        Some(net)
    } else {
        None
    }
}
