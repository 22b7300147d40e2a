use crate::builder::net_of;
use crate::writable::is_writable;
use cdl_connect::Net;
use cdl_net_tests::indexed;
use cdl_source::Text;
use cxf_graph::{text, write};
use std::alloc::Global;
use std::test::Fail;

// A block with a Not: its net, and its document.
static NOT: &str = "\
i # - 2 - | none
e u BI
e y BO
i #n 0 2 Logical.Not | none
e u BI
e y BO
w 0 0 2
w 0 3 1";

static NOT_DOCUMENT: &str = "\
{\"@context\":{\"cdl\":\"urn:cdl-cxf-profile:2\"},\"@graph\":[{\"@id\":\"#\",\"@type\":\"cdl:Composite\",\"cdl:connections\":[[{\"@id\":\"#u\"},{\"@id\":\"#n.u\"}],[{\"@id\":\"#n.y\"},{\"@id\":\"#y\"}]],\"cdl:connectors\":[{\"@id\":\"#u\"},{\"@id\":\"#y\"}],\"cdl:instances\":[{\"@id\":\"#n\"}]},\
{\"@id\":\"#u\",\"@type\":\"cdl:BooleanInput\"},\
{\"@id\":\"#y\",\"@type\":\"cdl:BooleanOutput\"},\
{\"@id\":\"#n\",\"@type\":\"cdl:Elementary\",\"cdl:connectors\":[{\"@id\":\"#n.u\"},{\"@id\":\"#n.y\"}],\"cdl:kind\":\"Logical.Not\",\"cdl:parameters\":{}},\
{\"@id\":\"#n.u\",\"@type\":\"cdl:BooleanInput\"},\
{\"@id\":\"#n.y\",\"@type\":\"cdl:BooleanOutput\"}]}";

// Arrays, units, wires in both directions, a part with a block in it, and each type of parameter.
static ALL: &str = "\
i # - 4 - | none
e u[1] RI K
e u[2] RI K
e y RO °\"C\\
e b BO
i #s 0 3 Reals.MultiSum | 2 1000000 -500000
e u[1] RI
e u[2] RI
e y RO
i #c[1] 0 1 Integers.Sources.Constant | 7
e y IO
i #c[2] 0 1 Integers.Sources.Constant | -8
e y IO
i #i 0 3 Integers.MultiSum | 2 3 -4
e u[1] II
e u[2] II
e y IO
i #t 0 1 Logical.Sources.Constant | 1
e y BO
i #k 0 2 - | none
e x BI
e z BO
i #k.n 6 2 Logical.Not | none
e u BI
e y BO
i #d 0 2 Logical.TrueDelay | 1500000 0
e u BI
e y BO
w 0 0 4
w 0 5 1
w 0 6 2
w 0 7 9
w 0 10 8
w 0 12 13
w 0 17 14
w 0 3 18
w 6 13 15
w 6 14 16";

static ALL_DOCUMENT: &str = "\
{\"@context\":{\"cdl\":\"urn:cdl-cxf-profile:2\"},\"@graph\":[{\"@id\":\"#\",\"@type\":\"cdl:Composite\",\"cdl:connections\":[[{\"@id\":\"#u[1]\"},{\"@id\":\"#s.u[1]\"}],[{\"@id\":\"#u[2]\"},{\"@id\":\"#s.u[2]\"}],[{\"@id\":\"#s.y\"},{\"@id\":\"#y\"}],[{\"@id\":\"#c[1].y\"},{\"@id\":\"#i.u[1]\"}],[{\"@id\":\"#c[2].y\"},{\"@id\":\"#i.u[2]\"}],[{\"@id\":\"#t.y\"},{\"@id\":\"#k.x\"}],[{\"@id\":\"#k.z\"},{\"@id\":\"#d.u\"}],[{\"@id\":\"#d.y\"},{\"@id\":\"#b\"}]],\"cdl:connectors\":[{\"@id\":\"#u[1]\"},{\"@id\":\"#u[2]\"},{\"@id\":\"#y\"},{\"@id\":\"#b\"}],\"cdl:instances\":[{\"@id\":\"#s\"},{\"@id\":\"#c[1]\"},{\"@id\":\"#c[2]\"},{\"@id\":\"#i\"},{\"@id\":\"#t\"},{\"@id\":\"#k\"},{\"@id\":\"#d\"}]},\
{\"@id\":\"#u[1]\",\"@type\":\"cdl:RealInput\",\"cdl:unit\":\"K\"},\
{\"@id\":\"#u[2]\",\"@type\":\"cdl:RealInput\",\"cdl:unit\":\"K\"},\
{\"@id\":\"#y\",\"@type\":\"cdl:RealOutput\",\"cdl:unit\":\"°\\\"C\\\\\"},\
{\"@id\":\"#b\",\"@type\":\"cdl:BooleanOutput\"},\
{\"@id\":\"#s\",\"@type\":\"cdl:Elementary\",\"cdl:connectors\":[{\"@id\":\"#s.u[1]\"},{\"@id\":\"#s.u[2]\"},{\"@id\":\"#s.y\"}],\"cdl:kind\":\"Reals.MultiSum\",\"cdl:parameters\":{\"k\":[\"1\",\"-0.5\"],\"nin\":2}},\
{\"@id\":\"#s.u[1]\",\"@type\":\"cdl:RealInput\"},\
{\"@id\":\"#s.u[2]\",\"@type\":\"cdl:RealInput\"},\
{\"@id\":\"#s.y\",\"@type\":\"cdl:RealOutput\"},\
{\"@id\":\"#c[1]\",\"@type\":\"cdl:Elementary\",\"cdl:connectors\":[{\"@id\":\"#c[1].y\"}],\"cdl:kind\":\"Integers.Sources.Constant\",\"cdl:parameters\":{\"k\":7}},\
{\"@id\":\"#c[1].y\",\"@type\":\"cdl:IntegerOutput\"},\
{\"@id\":\"#c[2]\",\"@type\":\"cdl:Elementary\",\"cdl:connectors\":[{\"@id\":\"#c[2].y\"}],\"cdl:kind\":\"Integers.Sources.Constant\",\"cdl:parameters\":{\"k\":-8}},\
{\"@id\":\"#c[2].y\",\"@type\":\"cdl:IntegerOutput\"},\
{\"@id\":\"#i\",\"@type\":\"cdl:Elementary\",\"cdl:connectors\":[{\"@id\":\"#i.u[1]\"},{\"@id\":\"#i.u[2]\"},{\"@id\":\"#i.y\"}],\"cdl:kind\":\"Integers.MultiSum\",\"cdl:parameters\":{\"k\":[3,-4],\"nin\":2}},\
{\"@id\":\"#i.u[1]\",\"@type\":\"cdl:IntegerInput\"},\
{\"@id\":\"#i.u[2]\",\"@type\":\"cdl:IntegerInput\"},\
{\"@id\":\"#i.y\",\"@type\":\"cdl:IntegerOutput\"},\
{\"@id\":\"#t\",\"@type\":\"cdl:Elementary\",\"cdl:connectors\":[{\"@id\":\"#t.y\"}],\"cdl:kind\":\"Logical.Sources.Constant\",\"cdl:parameters\":{\"k\":true}},\
{\"@id\":\"#t.y\",\"@type\":\"cdl:BooleanOutput\"},\
{\"@id\":\"#k\",\"@type\":\"cdl:Composite\",\"cdl:connections\":[[{\"@id\":\"#k.x\"},{\"@id\":\"#k.n.u\"}],[{\"@id\":\"#k.n.y\"},{\"@id\":\"#k.z\"}]],\"cdl:connectors\":[{\"@id\":\"#k.x\"},{\"@id\":\"#k.z\"}],\"cdl:instances\":[{\"@id\":\"#k.n\"}]},\
{\"@id\":\"#k.x\",\"@type\":\"cdl:BooleanInput\"},\
{\"@id\":\"#k.z\",\"@type\":\"cdl:BooleanOutput\"},\
{\"@id\":\"#k.n\",\"@type\":\"cdl:Elementary\",\"cdl:connectors\":[{\"@id\":\"#k.n.u\"},{\"@id\":\"#k.n.y\"}],\"cdl:kind\":\"Logical.Not\",\"cdl:parameters\":{}},\
{\"@id\":\"#k.n.u\",\"@type\":\"cdl:BooleanInput\"},\
{\"@id\":\"#k.n.y\",\"@type\":\"cdl:BooleanOutput\"},\
{\"@id\":\"#d\",\"@type\":\"cdl:Elementary\",\"cdl:connectors\":[{\"@id\":\"#d.u\"},{\"@id\":\"#d.y\"}],\"cdl:kind\":\"Logical.TrueDelay\",\"cdl:parameters\":{\"delayOnInit\":false,\"delayTime\":\"1.5\"}},\
{\"@id\":\"#d.u\",\"@type\":\"cdl:BooleanInput\"},\
{\"@id\":\"#d.y\",\"@type\":\"cdl:BooleanOutput\"}]}";

fn text_of(alloc: Global, net: Net) -> Result<Text, Fail> {
    let net = indexed(net).ok_or("numbers out of range")?;
    let checked = match net.check(alloc) {
        Ok(checked) => checked,
        Err(_refusal) => return Err("a rule is broken".into()),
    };
    let graph = write(alloc, &checked)?;
    if !is_writable(&graph) {
        return Err("not to be written".into());
    }
    Ok(text(alloc, &graph)?)
}

#[test]
fn each_net_has_its_document(rt: HostRuntime) -> Result<(), Fail> {
    let alloc = rt.alloc();
    for (lines, want) in [(NOT, NOT_DOCUMENT), (ALL, ALL_DOCUMENT)] {
        let found = text_of(alloc, net_of(alloc, lines)?)?;
        assert!(rt; found.bytes() == want.as_bytes(), "{lines}");
    }
    Ok(())
}
