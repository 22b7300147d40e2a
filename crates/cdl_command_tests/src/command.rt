// Jobs over files and sinks in memory.
ghost use Rattle.std.specs.Prelude.{◌≡◌, ◌≤◌, ◌^◌, IfOk};

use crate::marks::bytes_of;
use cdl_command::command;
use cdl_source::{MemFiles, MemSink, Text};
use itoa::Buffer;
use std::alloc::Global;
use std::test::Fail;

// The words of a job, and what its files m.mo, s.mo and t.csv hold.
#[derive(Clone, Copy)]
struct Given<'a> {
    words: &'a str,
    model: &'a [u8],
    other: &'a [u8],
    table: &'a [u8],
}

// The most bytes that a read gives and a write takes, and the calls of the files and the writes of the sinks that fail, counted
// from 1; 0: none.
#[derive(Clone, Copy)]
struct Devices {
    read: usize,
    write: usize,
    files: u64,
    out: u64,
    err: u64,
}

const SOUND: Devices = Devices {
    read: usize::MAX,
    write: 7,
    files: 0,
    out: 0,
    err: 0,
};

// What `&` stands for in a case.
const LIBRARY: &[u8] = b"Buildings.Controls.OBC.CDL.";

const RUN: &str = "run M t.csv m.mo";

const GATES: &str =
    "block M|  &Interfaces.BooleanInput u1;|  &Interfaces.BooleanInput u2;|  &Interfaces.BooleanOutput y;|  &Logical.Not n;|  &Logical.And a;|  &Logical.Or o;|equation|  connect(u1, n.u);|  connect(n.y, a.u1);|  connect(u2, a.u2);|  connect(u1, o.u1);|  connect(a.y, o.u2);|  connect(o.y, y);|end M;|";

// The words, the models m.mo and s.mo, the table t.csv, and then what the job ends with: the code, and the texts on the two
// sinks. First what runs, and ends with a fault; then the rules of texts, those of classes, and what files are begun.
const CASES: &str =
    "run M t.csv m.mo s.mo~block M|  &Interfaces.BooleanInput u1;|  &Interfaces.BooleanInput u2;|  &Interfaces.BooleanOutput y;|  &Logical.Not n;|  &Logical.And a;|  &Logical.Or o;|equation|  connect(u1, n.u);|  connect(n.y, a.u1);|  connect(u2, a.u2);|  connect(u1, o.u1);|  connect(a.y, o.u2);|  connect(o.y, y);|end M;|~package Q end Q;~time,u1,u2|0,false,false|1000,false,true|2000,true,false|3000,true,true|>0~time,y|0,false|1000,true|2000,true|3000,true|~\n\
    run M t.csv m.mo~block M end M;~~time|7|>0~time|7|~\n\
    run M t.csv m.mo~block M end M;~~time,u|0,1|>1~~t.csv:1:2: C62 wrong header|\n\
    run M t.csv m.mo~block M end M;~~time|0,1|>1~~t.csv:2:1: C61 wrong number of fields|\n\
    run P.M t.csv s.mo m.mo~within P; block M /* here */ annotation(version = \"1\"); end M;~within P; package K end K;~time|>0~time|~\n\
    run M t.csv m.mo~block M &Interfaces.RealInput u1; &Interfaces.RealInput u2; &Interfaces.RealOutput y; &Reals.Divide d; equation connect(u1, d.u1); connect(u2, d.u2); connect(d.y, y); end M;~~time,u1,u2|0,1,3|1,2,3|2,1,0|>3~time,y|0,0.333333|1,0.666667|~range fault at 2 in #d|\n\
    run M t.csv m.mo~block M &Interfaces.IntegerInput u1; &Interfaces.IntegerInput u2; &Interfaces.IntegerOutput y; &Integers.Multiply m; equation connect(u1, m.u1); connect(u2, m.u2); connect(m.y, y); end M;~~time,u1,u2|0,65536,32767|1,65536,32768|2,1,1|>3~time,y|0,2147418112|~range fault at 1 in #m|\n\
    run M t.csv m.mo~block M &Interfaces.RealInput u1; &Interfaces.RealInput u2; &Interfaces.RealOutput y; &Interfaces.RealOutput z; &Reals.Divide e; &Reals.Divide d; &Reals.Divide f; equation connect(u1, f.u1); connect(u2, f.u2); connect(u1, d.u1); connect(u2, d.u2); connect(u1, e.u1); connect(u1, e.u2); connect(d.y, y); connect(f.y, z); end M;~~time,u1,u2|0,1,0|>3~time,y,z|~range fault at 0 in #d|\n\
    run Buildings.Controls.OBC.X.M t.csv m.mo~within Buildings.Controls.OBC.X;|block M|  CDL.Interfaces.BooleanInput u;|  CDL.Interfaces.BooleanOutput y;|equation|  connect(u, y);|end M;|~~time,u|0,true|>0~time,y|0,true|~\n\
    run M t.csv m.mo~block M ^ end M;~~time,u1,u2|>1~~m.mo:1:9: C2 not UTF-8|\n\
    run M t.csv m.mo~block M| # end M;~~time,u1,u2|>1~~m.mo:2:2: C3 no token here|\n\
    run M t.csv m.mo~block M parameter Integer k = 2147483648; end M;~~time,u1,u2|>1~~m.mo:1:31: C4 literal or identifier past its limits|\n\
    run M t.csv m.mo~block M|end M~~time,u1,u2|>1~~m.mo:2:6: C7 syntax|\n\
    run M t.csv m.mo~block M|end N;~~time,u1,u2|>1~~m.mo:2:5: C8 wrong name after end|\n\
    run M t.csv m.mo none.mo~block M end N;~~time,u1,u2|>1~~m.mo:1:13: C8 wrong name after end|\n\
    run M t.csv m.mo s.mo~block M Foo f; end M;~package Q end R;~time,u1,u2|>1~~s.mo:1:15: C8 wrong name after end|\n\
    run M t.csv m.mo m.mo~block M end M;~~time,u1,u2|>1~~m.mo:1:7: C10 name declared twice|\n\
    run M t.csv m.mo s.mo~block M Foo f; end M;~||block M end M;~time,u1,u2|>1~~s.mo:3:7: C10 name declared twice|\n\
    run M t.csv m.mo s.mo~block M Foo f; end M;~block Real end Real;~time,u1,u2|>1~~s.mo:1:7: C11 name not free|\n\
    run M t.csv m.mo s.mo~block M end M;~block N|  Foo f; end N;~time,u1,u2|>1~~s.mo:2:3: C12 name not found|\n\
    run Buildings.Controls.OBC.X.M t.csv m.mo s.mo~within Buildings.Controls.OBC.X;|block M|  CDL.Interfaces.BooleanInput u; end M;~within Buildings.Controls.OBC.X;|package CDL|end CDL;~time,u1,u2|>1~~m.mo:3:3: C12 name not found|\n\
    run N t.csv m.mo~block M|  &Reals.PID p; end M;~~time,u1,u2|>1~~m.mo:2:3: C13 not supported here|\n\
    run M t.csv m.mo none.mo~block M Foo f; end M;~~time,u1,u2|>4~~read fault|\n\
    run N none.csv m.mo~block M end M;~~time,u1,u2|>1~~#: C14 no such block|\n\
    run Q none.csv m.mo s.mo~block M end M;~package Q end Q;~time,u1,u2|>1~~#: C14 no such block|\n\
    run E none.csv m.mo s.mo~block M end M;~type E = enumeration(a, b);~time,u1,u2|>1~~#: C14 no such block|\n\
    run M none.csv m.mo~block M &Logical.Pre p; end M;~~time,u1,u2|>1~~#p.u: C46 no source|\n\
    run M none.csv m.mo s.mo~block M N n; end M;~block N end N;~time,u1,u2|>4~~read fault|\n\
    run M none.csv m.mo~block M parameter Real k = 1; end M;~~time,u1,u2|>4~~read fault|\n\
    run M none.csv m.mo~block M equation for i in 1:2 loop end for; end M;~~time,u1,u2|>4~~read fault|\n\
    run M none.csv m.mo~block M equation for i in 1:2 loop connect(a, b) end for; end M;~~time,u1,u2|>1~~m.mo:1:50: C7 syntax|\n\
    run M none.csv m.mo~block M equation for i in 1:2:3 loop end for; end M;~~time,u1,u2|>1~~m.mo:1:30: C7 syntax|\n\
    checkcxf m.mo~~~time,u1,u2|>1~~#: C9 not built yet|\n\
    sample 2000~~~time,u1,u2|>1~~#: C9 not built yet|\n\
    run M m.mo m.mo~block M end M;~~time,u1,u2|>1~~m.mo:1:1: C62 wrong header|\n\
    run M none.csv m.mo~block M end M;~~time,u1,u2|>4~~read fault|\n\
    run M t.csv none.mo~~~time,u1,u2|>4~~read fault|";

// The same of the rules of instances, statements, wires, elements and loops, one by one and two at once; and of runs of blocks in
// blocks.
const RULES: &str = "check M m.mo~block M end M;~~>0~ok|~\n\
    check M m.mo~block M &Logical.Not n; &Logical.Pre p; equation connect(n.y, p.u); connect(p.y, n.u); end M;~~>0~ok|~\n\
    check M m.mo s.mo~block M N n; end M;~block N end N;~>0~ok|~\n\
    check M m.mo~block M &Logical.Not n[200,101]; end M;~~>1~~#n[199,2]: C20 too many or too deep|\n\
    check M m.mo~block M M m; end M;~~>1~~#m: C21 block contains itself|\n\
    check M m.mo~block M &Logical.Not n(x=1); end M;~~>1~~#n: C22 nothing to modify|\n\
    check M m.mo~block M parameter Real p(min=0, min=1)=1; end M;~~>1~~#p: C23 modified twice|\n\
    check M m.mo s.mo~block M K b(k=2); end M;~block K final parameter Real k=1; end K;~>1~~#b.k: C24 modifies a final value|\n\
    check M m.mo~block M parameter Boolean p={true} and 1/0<1; end M;~~>1~~#p: C25 wrong shape|\n\
    check M m.mo~block M parameter Integer p=min(1, 2.5); end M;~~>1~~#p: C26 wrong type|\n\
    check M m.mo~block M parameter Real p=foo(1/0); end M;~~>1~~#p: C27 unknown name or function|\n\
    check M m.mo~block M &Interfaces.RealInput u[5000,1/0]; end M;~~>1~~#u: C28 size out of range|\n\
    check M m.mo~block M parameter Real a=b+1/0; parameter Real b=a; end M;~~>1~~#a: C29 parameters depend too deeply|\n\
    check M m.mo~block M parameter Real p={1}+1/0; end M;~~>1~~#p: C30 no value|\n\
    check M m.mo~block M parameter Real v[1/0]; end M;~~>1~~#v: C31 parameter without a value|\n\
    check M m.mo~block M &Integers.MultiSum s(nin=257); end M;~~>1~~#s: C32 parameter out of its condition|\n\
    check M m.mo~block M &Interfaces.RealInput u(unit=\"aaaaaaaaaaaaaaaaaaaaaaaaaaaaaaaaaaaaaaaaaaaaaaaaaaaaaaaaaaaaaaaaa\"); end M;~~>1~~#u: C38 unit too long|\n\
    check M m.mo~block M equation for i in -2147483647:2147483647 loop connect(x, y); end for; end M;~~>1~~m.mo:1:18 in #: C39 too many turns|\n\
    check M m.mo~block M &Interfaces.RealOutput y; equation connect(y, z); end M;~~>1~~m.mo:1:70 in #: C40 no such connector|\n\
    check M m.mo~block M &Interfaces.RealInput u[2]; equation connect(u[3:1], u); end M;~~>1~~m.mo:1:72 in #: C41 wrong subscript|\n\
    check M m.mo~block M &Interfaces.RealInput u[2]; &Interfaces.RealOutput y; equation connect(u[1:1], y); end M;~~>1~~m.mo:1:124 in #: C42 shapes differ|\n\
    check M m.mo~block M &Interfaces.RealInput u; equation connect(u, u); end M;~~>1~~#u to #u: C43 two sources or two sinks joined|\n\
    check M m.mo~block M &Interfaces.BooleanInput a; &Interfaces.IntegerOutput y; &Interfaces.BooleanInput b; &Interfaces.RealOutput z; equation connect(a, y); connect(a, b); end M;~~>1~~#a to #y: C44 types differ|\n\
    check M m.mo~block M &Interfaces.RealInput u; &Interfaces.RealOutput y; equation connect(u, y); connect(y, u); end M;~~>1~~#y: C45 more than one source|\n\
    check M m.mo~block M &Interfaces.RealInput u; &Interfaces.RealOutput y; &Interfaces.RealOutput z; equation connect(u, z); connect(u, z); end M;~~>1~~#y: C46 no source|\n\
    check M m.mo~block M &Interfaces.RealInput u(unit=\"K\"); &Interfaces.RealOutput y(unit=\"C\"); equation connect(u, y); end M;~~>1~~#u to #y: C48 units differ|\n\
    check M m.mo~block M &Logical.And a; &Logical.Not n; equation connect(a.y, n.u); connect(n.y, a.u1); connect(n.y, a.u2); end M;~~>1~~#a: C50 loop without a delay|\n\
    check M m.mo~block M &Logical.Not n; &Reals.Abs r; equation connect(n.y, n.u); end M;~~>1~~#r.u: C46 no source|\n\
    check M m.mo~block M &Reals.Abs r; &Logical.Not n; equation connect(n.y, n.u); end M;~~>1~~#r.u: C46 no source|\n\
    check M m.mo~block M &Interfaces.RealOutput y; parameter Real p=1/0; equation connect(y, z); end M;~~>1~~#p: C30 no value|\n\
    run M t.csv m.mo s.mo~block M &Interfaces.BooleanInput u; &Interfaces.BooleanOutput y; K k[2]; equation connect(u, k[1].u); connect(k[1].y, k[2].u); connect(k[2].y, y); end M;~block K &Interfaces.BooleanInput u; &Interfaces.BooleanOutput y; &Logical.Not n; &Logical.Pre p; equation connect(u, n.u); connect(n.y, p.u); connect(p.y, y); end K;~time,u|0,true|1,false|2,true|3,true|>0~time,y|0,false|1,true|2,true|3,false|~\n\
    run M t.csv m.mo s.mo~block M parameter Real n=7; K b(k=n); &Interfaces.RealOutput y; equation connect(b.y, y); end M;~block K parameter Real n=1; parameter Real k=0; &Reals.Sources.Constant c(k=k); &Interfaces.RealOutput y; equation connect(c.y, y); end K;~time|0|>0~time,y|0,7|~\n\
    run M t.csv m.mo s.mo~block M &Interfaces.RealInput u[2]; &Interfaces.RealOutput y[2]; K k[2]; equation connect(u, k.u); connect(k.y, y); end M;~block K &Interfaces.RealInput u; &Interfaces.RealOutput y; &Reals.Sources.Constant c(k=1); &Reals.Divide d; equation connect(c.y, d.u1); connect(u, d.u2); connect(d.y, y); end K;~time,u[1],u[2]|0,4,0.5|1,2,0|2,1,1|>3~time,y[1],y[2]|0,0.25,2|~range fault at 1 in #k[2].d|\n\
    run M none.csv m.mo~block M &Logical.Not n; equation connect(n.y, n.u); end M;~~>1~~#n: C50 loop without a delay|\n\
    run M none.csv m.mo~block M &Logical.Not n; &Logical.Pre p; equation connect(n.y, p.u); connect(p.y, n.u); end M;~~>4~~read fault|\n\
    run M t.csv m.mo~block M &Interfaces.BooleanInput u; end M;~~time|0|>1~~t.csv:1:2: C62 wrong header|";

// The same of two rules of different phases at once, the one or the other first in the text.
const PHASES: &str =
    "check M m.mo s.mo~block M K k; parameter Real p=1/0; end M;~block K Foo f; end K;~>1~~s.mo:1:9: C12 name not found|\n\
    check M s.mo m.mo~block M K k; parameter Real p=1/0; end M;~block K Foo f; end K;~>1~~s.mo:1:9: C12 name not found|\n\
    check M m.mo s.mo~block M K k; parameter Real p=1/0; end M;~block K equation connect(y, z); end K;~>1~~#p: C30 no value|\n\
    check M m.mo s.mo~block M parameter Real p=1/0; K k; end M;~block K equation connect(y, z); end K;~>1~~#p: C30 no value|\n\
    check M m.mo~block M &Interfaces.RealInput u; equation connect(u, u); connect(u, z); end M;~~>1~~m.mo:1:84 in #: C40 no such connector|\n\
    check M m.mo~block M &Interfaces.RealInput u; equation connect(u, z); connect(u, u); end M;~~>1~~m.mo:1:69 in #: C40 no such connector|\n\
    check M m.mo~block M &Logical.Pre p; &Interfaces.RealInput u; equation connect(u, u); end M;~~>1~~#u to #u: C43 two sources or two sinks joined|\n\
    check M m.mo~block M &Interfaces.RealInput u; &Logical.Pre p; equation connect(u, u); end M;~~>1~~#u to #u: C43 two sources or two sinks joined|\n\
    check M m.mo~block M &Interfaces.RealInput a(unit=\"K\"); &Interfaces.RealOutput b(unit=\"C\"); &Logical.Not n; equation connect(n.y, n.u); connect(a, b); end M;~~>1~~#a to #b: C48 units differ|\n\
    check M m.mo~block M &Interfaces.RealInput a(unit=\"K\"); &Interfaces.RealOutput b(unit=\"C\"); &Logical.Not n; equation connect(a, b); connect(n.y, n.u); end M;~~>1~~#a to #b: C48 units differ|";

// The same of documents: without an element, of blocks in blocks with arrays and units, and with every type of parameter; and of
// refusals, of each phase one.
const DOCUMENTS: &str =
    "cxf M m.mo~block M end M;~~>0~{\"$context\":{\"cdl\":\"urn:cdl-cxf-profile:2\"},\"$graph\":[{\"$id\":\"#\",\"$type\":\"cdl:Composite\",\"cdl:connections\":[],\"cdl:connectors\":[],\"cdl:instances\":[]}]}|~\n\
    cxf M m.mo~block M &Interfaces.BooleanInput u; &Interfaces.BooleanOutput y; &Logical.Not n; equation connect(u, n.u); connect(n.y, y); end M;~~>0~{\"$context\":{\"cdl\":\"urn:cdl-cxf-profile:2\"},\"$graph\":[{\"$id\":\"#\",\"$type\":\"cdl:Composite\",\"cdl:connections\":[[{\"$id\":\"#u\"},{\"$id\":\"#n.u\"}],[{\"$id\":\"#n.y\"},{\"$id\":\"#y\"}]],\"cdl:connectors\":[{\"$id\":\"#u\"},{\"$id\":\"#y\"}],\"cdl:instances\":[{\"$id\":\"#n\"}]},{\"$id\":\"#u\",\"$type\":\"cdl:BooleanInput\"},{\"$id\":\"#y\",\"$type\":\"cdl:BooleanOutput\"},{\"$id\":\"#n\",\"$type\":\"cdl:Elementary\",\"cdl:connectors\":[{\"$id\":\"#n.u\"},{\"$id\":\"#n.y\"}],\"cdl:kind\":\"Logical.Not\",\"cdl:parameters\":{}},{\"$id\":\"#n.u\",\"$type\":\"cdl:BooleanInput\"},{\"$id\":\"#n.y\",\"$type\":\"cdl:BooleanOutput\"}]}|~\n\
    cxf P.M m.mo s.mo~within P; block M &Interfaces.RealInput u[2](unit={\"K\",\"\"}); &Interfaces.RealOutput y[2](each unit=\"m2\"); &Interfaces.RealOutput z if false; K k[2]; equation connect(k.u, u); connect(k.y, y); end M;~within P; block K &Interfaces.RealInput u; &Interfaces.RealOutput y; &Reals.Abs a; equation connect(a.u, u); connect(a.y, y); end K;~>0~{\"$context\":{\"cdl\":\"urn:cdl-cxf-profile:2\"},\"$graph\":[{\"$id\":\"#\",\"$type\":\"cdl:Composite\",\"cdl:connections\":[[{\"$id\":\"#u[1]\"},{\"$id\":\"#k[1].u\"}],[{\"$id\":\"#u[2]\"},{\"$id\":\"#k[2].u\"}],[{\"$id\":\"#k[1].y\"},{\"$id\":\"#y[1]\"}],[{\"$id\":\"#k[2].y\"},{\"$id\":\"#y[2]\"}]],\"cdl:connectors\":[{\"$id\":\"#u[1]\"},{\"$id\":\"#u[2]\"},{\"$id\":\"#y[1]\"},{\"$id\":\"#y[2]\"}],\"cdl:instances\":[{\"$id\":\"#k[1]\"},{\"$id\":\"#k[2]\"}]},{\"$id\":\"#u[1]\",\"$type\":\"cdl:RealInput\",\"cdl:unit\":\"K\"},{\"$id\":\"#u[2]\",\"$type\":\"cdl:RealInput\"},{\"$id\":\"#y[1]\",\"$type\":\"cdl:RealOutput\",\"cdl:unit\":\"m2\"},{\"$id\":\"#y[2]\",\"$type\":\"cdl:RealOutput\",\"cdl:unit\":\"m2\"},{\"$id\":\"#k[1]\",\"$type\":\"cdl:Composite\",\"cdl:connections\":[[{\"$id\":\"#k[1].u\"},{\"$id\":\"#k[1].a.u\"}],[{\"$id\":\"#k[1].a.y\"},{\"$id\":\"#k[1].y\"}]],\"cdl:connectors\":[{\"$id\":\"#k[1].u\"},{\"$id\":\"#k[1].y\"}],\"cdl:instances\":[{\"$id\":\"#k[1].a\"}]},{\"$id\":\"#k[1].u\",\"$type\":\"cdl:RealInput\"},{\"$id\":\"#k[1].y\",\"$type\":\"cdl:RealOutput\"},{\"$id\":\"#k[1].a\",\"$type\":\"cdl:Elementary\",\"cdl:connectors\":[{\"$id\":\"#k[1].a.u\"},{\"$id\":\"#k[1].a.y\"}],\"cdl:kind\":\"Reals.Abs\",\"cdl:parameters\":{}},{\"$id\":\"#k[1].a.u\",\"$type\":\"cdl:RealInput\"},{\"$id\":\"#k[1].a.y\",\"$type\":\"cdl:RealOutput\"},{\"$id\":\"#k[2]\",\"$type\":\"cdl:Composite\",\"cdl:connections\":[[{\"$id\":\"#k[2].u\"},{\"$id\":\"#k[2].a.u\"}],[{\"$id\":\"#k[2].a.y\"},{\"$id\":\"#k[2].y\"}]],\"cdl:connectors\":[{\"$id\":\"#k[2].u\"},{\"$id\":\"#k[2].y\"}],\"cdl:instances\":[{\"$id\":\"#k[2].a\"}]},{\"$id\":\"#k[2].u\",\"$type\":\"cdl:RealInput\"},{\"$id\":\"#k[2].y\",\"$type\":\"cdl:RealOutput\"},{\"$id\":\"#k[2].a\",\"$type\":\"cdl:Elementary\",\"cdl:connectors\":[{\"$id\":\"#k[2].a.u\"},{\"$id\":\"#k[2].a.y\"}],\"cdl:kind\":\"Reals.Abs\",\"cdl:parameters\":{}},{\"$id\":\"#k[2].a.u\",\"$type\":\"cdl:RealInput\"},{\"$id\":\"#k[2].a.y\",\"$type\":\"cdl:RealOutput\"}]}|~\n\
    cxf M m.mo~block M &Interfaces.RealInput r[2]; &Interfaces.IntegerInput i[2]; &Interfaces.BooleanInput b; &Reals.MultiSum s(nin=2, k={1.50,-1e-6}); &Integers.MultiSum m(nin=2, k={3,-2147483647}); &Integers.AddParameter a(p=-7); &Logical.TrueDelay d(delayTime=12.5, delayOnInit=true); equation connect(r, s.u); connect(i, m.u); connect(m.y, a.u); connect(b, d.u); end M;~~>0~{\"$context\":{\"cdl\":\"urn:cdl-cxf-profile:2\"},\"$graph\":[{\"$id\":\"#\",\"$type\":\"cdl:Composite\",\"cdl:connections\":[[{\"$id\":\"#r[1]\"},{\"$id\":\"#s.u[1]\"}],[{\"$id\":\"#r[2]\"},{\"$id\":\"#s.u[2]\"}],[{\"$id\":\"#i[1]\"},{\"$id\":\"#m.u[1]\"}],[{\"$id\":\"#i[2]\"},{\"$id\":\"#m.u[2]\"}],[{\"$id\":\"#m.y\"},{\"$id\":\"#a.u\"}],[{\"$id\":\"#b\"},{\"$id\":\"#d.u\"}]],\"cdl:connectors\":[{\"$id\":\"#r[1]\"},{\"$id\":\"#r[2]\"},{\"$id\":\"#i[1]\"},{\"$id\":\"#i[2]\"},{\"$id\":\"#b\"}],\"cdl:instances\":[{\"$id\":\"#s\"},{\"$id\":\"#m\"},{\"$id\":\"#a\"},{\"$id\":\"#d\"}]},{\"$id\":\"#r[1]\",\"$type\":\"cdl:RealInput\"},{\"$id\":\"#r[2]\",\"$type\":\"cdl:RealInput\"},{\"$id\":\"#i[1]\",\"$type\":\"cdl:IntegerInput\"},{\"$id\":\"#i[2]\",\"$type\":\"cdl:IntegerInput\"},{\"$id\":\"#b\",\"$type\":\"cdl:BooleanInput\"},{\"$id\":\"#s\",\"$type\":\"cdl:Elementary\",\"cdl:connectors\":[{\"$id\":\"#s.u[1]\"},{\"$id\":\"#s.u[2]\"},{\"$id\":\"#s.y\"}],\"cdl:kind\":\"Reals.MultiSum\",\"cdl:parameters\":{\"k\":[\"1.5\",\"-0.000001\"],\"nin\":2}},{\"$id\":\"#s.u[1]\",\"$type\":\"cdl:RealInput\"},{\"$id\":\"#s.u[2]\",\"$type\":\"cdl:RealInput\"},{\"$id\":\"#s.y\",\"$type\":\"cdl:RealOutput\"},{\"$id\":\"#m\",\"$type\":\"cdl:Elementary\",\"cdl:connectors\":[{\"$id\":\"#m.u[1]\"},{\"$id\":\"#m.u[2]\"},{\"$id\":\"#m.y\"}],\"cdl:kind\":\"Integers.MultiSum\",\"cdl:parameters\":{\"k\":[3,-2147483647],\"nin\":2}},{\"$id\":\"#m.u[1]\",\"$type\":\"cdl:IntegerInput\"},{\"$id\":\"#m.u[2]\",\"$type\":\"cdl:IntegerInput\"},{\"$id\":\"#m.y\",\"$type\":\"cdl:IntegerOutput\"},{\"$id\":\"#a\",\"$type\":\"cdl:Elementary\",\"cdl:connectors\":[{\"$id\":\"#a.u\"},{\"$id\":\"#a.y\"}],\"cdl:kind\":\"Integers.AddParameter\",\"cdl:parameters\":{\"p\":-7}},{\"$id\":\"#a.u\",\"$type\":\"cdl:IntegerInput\"},{\"$id\":\"#a.y\",\"$type\":\"cdl:IntegerOutput\"},{\"$id\":\"#d\",\"$type\":\"cdl:Elementary\",\"cdl:connectors\":[{\"$id\":\"#d.u\"},{\"$id\":\"#d.y\"}],\"cdl:kind\":\"Logical.TrueDelay\",\"cdl:parameters\":{\"delayOnInit\":true,\"delayTime\":\"12.5\"}},{\"$id\":\"#d.u\",\"$type\":\"cdl:BooleanInput\"},{\"$id\":\"#d.y\",\"$type\":\"cdl:BooleanOutput\"}]}|~\n\
    cxf M none.mo~~~>4~~read fault|\n\
    cxf M m.mo~block M end N;~~>1~~m.mo:1:13: C8 wrong name after end|\n\
    cxf M m.mo~block M Foo f; end M;~~>1~~m.mo:1:9: C12 name not found|\n\
    cxf N m.mo~block M end M;~~>1~~#: C14 no such block|\n\
    cxf M m.mo~block M parameter Real p=1/0; end M;~~>1~~#p: C30 no value|\n\
    cxf M m.mo~block M &Interfaces.RealOutput y; equation connect(y, z); end M;~~>1~~m.mo:1:70 in #: C40 no such connector|\n\
    cxf M m.mo~block M &Interfaces.RealInput u; equation connect(u, u); end M;~~>1~~#u to #u: C43 two sources or two sinks joined|\n\
    cxf M m.mo~block M &Logical.Pre p; end M;~~>1~~#p.u: C46 no source|\n\
    cxf M m.mo~block M &Logical.Not n; equation connect(n.y, n.u); end M;~~>1~~#n: C50 loop without a delay|";

// The same of models at the limit of wires, and past it.
const WIRES: &str =
    "check M m.mo~block M &Interfaces.RealInput u[4000]; &Interfaces.RealOutput y[4000]; equation for i in 1:100 loop connect(u, y); end for; end M;~~>1~~#y[1]: C45 more than one source|\n\
    check M m.mo~block M &Interfaces.RealInput u[4000]; &Interfaces.RealOutput y[4000]; equation for i in 1:101 loop connect(u, y); end for; end M;~~>1~~m.mo:1:153 in #: C47 too many wires|";

// Words that are no job.
const NO_JOBS: &str = "sample 007\n\
    check end m.mo\n\
    run M t.csv\n\
    run M t.csv m m m m m m m m m m m m m m m m m m m m m m m m m m m m m m m m m m m m m m m m m m m m m m m m m m m m m m m m m m m m m m m m m";

const USAGE: &[u8] =
    b"2~~usage: cdl check CLASS MODEL.. | run CLASS TABLE MODEL.. | cxf CLASS MODEL.. | checkcxf DOC | runcxf TABLE DOC | sample N\n";

// Tables of the inputs `u1` and `u2` of GATES, and what their runs end with: each rule is broken beside the nearest table that
// keeps it, and then two rules at once, in one record and in two.
const TABLES: &str = "time,u1,u2|>0~time,y|~\n\
    @|\"time\",u1,u2%|%|\"0\",0,0%5,1,0||7,0,\"1>0~time,y|0,false|5,true|7,true|~\n\
    time,u1,u2|0,true|>1~~t.csv:2:1: C61 wrong number of fields|\n\
    time,u1,u2|0,true,1|>0~time,y|0,true|~\n\
    time,u1,u2|0,true,1,1|>1~~t.csv:2:1: C61 wrong number of fields|\n\
    >1~~t.csv:1:1: C62 wrong header|\n\
    |%|>1~~t.csv:1:1: C62 wrong header|\n\
    u1,u2|>1~~t.csv:1:1: C62 wrong header|\n\
    time,u2,u1|>1~~t.csv:1:2: C62 wrong header|\n\
    time,u1|>1~~t.csv:1:3: C62 wrong header|\n\
    time,u1,u2,|>1~~t.csv:1:4: C62 wrong header|\n\
    time,u1,u2|1.5,true,true|>1~~t.csv:2:1: C63 not a time|\n\
    time,u1,u2|15,true,true|>0~time,y|15,true|~\n\
    time,u1,u2|10000000000000,1,0|>0~time,y|10000000000000,true|~\n\
    time,u1,u2|10000000000001,1,0|>1~~t.csv:2:1: C63 not a time|\n\
    time,u1,u2|5,true,true|5,true,true|>1~~t.csv:3:1: C64 time doesn't rise|\n\
    time,u1,u2||5,1,1||4,1,1|>1~~t.csv:3:1: C64 time doesn't rise|\n\
    time,u1,u2|5,true,true|6,true,true|>0~time,y|5,true|6,true|~\n\
    time,u1,u2|0,true,yes|>1~~t.csv:2:3: C65 not a value of its type|\n\
    time,u1,u2|0,TRUE,1|>1~~t.csv:2:2: C65 not a value of its type|\n\
    time,u1,u2|0,1,1 |>1~~t.csv:2:3: C65 not a value of its type|\n\
    time,u1,u2|x,true|>1~~t.csv:2:1: C61 wrong number of fields|\n\
    time,u1,u2|0,yes|>1~~t.csv:2:1: C61 wrong number of fields|\n\
    time,u1,u2|x,yes,1|>1~~t.csv:2:1: C63 not a time|\n\
    time,u1,u2|5,1,1|5,yes,1|>1~~t.csv:3:1: C64 time doesn't rise|\n\
    time,u1,u2|0,yes,no|>1~~t.csv:2:2: C65 not a value of its type|\n\
    time,u1|x,1,1|>1~~t.csv:1:3: C62 wrong header|\n\
    time,u1,u2|0,1|x,1,1|>1~~t.csv:2:1: C61 wrong number of fields|\n\
    time,u1,u2|x,1,1|0,1|>1~~t.csv:2:1: C63 not a time|\n\
    time,u1,u2|5,1,yes|5,1,1|>1~~t.csv:2:3: C65 not a value of its type|\n\
    time,u1,u2|5,1,1|5,1,1|6,1,yes|>1~~t.csv:3:1: C64 time doesn't rise|\n\
    time,u1,u2|5,1,1|6,1,yes|6,1|>1~~t.csv:3:3: C65 not a value of its type|";

// A job of two models, whose class lies in the package of the second.
const TWO_MODELS: &str =
    "run P.M t.csv m.mo s.mo~within P; block M &Interfaces.BooleanInput u1; &Interfaces.BooleanInput u2; &Interfaces.BooleanOutput y; &Logical.Or a; equation connect(u1, a.u1); connect(u2, a.u2); connect(a.y, y); end M;~within P; package K end K;~time,u1,u2|0,false,false|1000,false,true|2000,true,false|3000,true,true|";

// The calls of the files, of the standard output and of the standard error that fail in that job, and what it ends with. Each
// file is begun, read, and read to its end; each record is written in pieces of at most 7 bytes.
const FAILING_CALLS: &str = "10 0 0>0~time,y|0,false|1000,true|2000,true|3000,true|~\n\
    0 10 0>0~time,y|0,false|1000,true|2000,true|3000,true|~\n\
    1 0 0>4~~read fault|\n\
    2 0 0>4~~read fault|\n\
    3 0 0>4~~read fault|\n\
    4 0 0>4~~read fault|\n\
    5 0 0>4~~read fault|\n\
    6 0 0>4~~read fault|\n\
    7 0 0>4~~read fault|\n\
    8 0 0>4~~read fault|\n\
    9 0 0>4~~read fault|\n\
    1 0 1>5~~\n\
    0 1 0>5~~write fault|\n\
    0 2 0>5~time,y|~write fault|\n\
    0 3 0>5~time,y|0,false~write fault|\n\
    0 4 0>5~time,y|0,false|~write fault|\n\
    0 5 0>5~time,y|0,false|1000,tr~write fault|\n\
    0 6 0>5~time,y|0,false|1000,true|~write fault|\n\
    0 7 0>5~time,y|0,false|1000,true|2000,tr~write fault|\n\
    0 8 0>5~time,y|0,false|1000,true|2000,true|~write fault|\n\
    0 9 0>5~time,y|0,false|1000,true|2000,true|3000,tr~write fault|";

// Jobs that write much, and what they print: a run of blocks with states, and a document.
const WRITES: &str =
    "run M t.csv m.mo~block M &Interfaces.BooleanInput u; &Interfaces.BooleanOutput y; &Interfaces.BooleanOutput z; &Logical.Pre p; &Logical.TrueDelay d(delayTime=1.5); equation connect(u, p.u); connect(p.y, y); connect(u, d.u); connect(d.y, z); end M;~~time,u|0,false|1000,true|2000,true|3000,true|4000,false|>time,y,z|0,false,false|1000,false,false|2000,true,false|3000,true,true|4000,true,false|\n\
    cxf M m.mo~block M &Interfaces.BooleanInput u; &Interfaces.BooleanOutput y; &Logical.Not n; equation connect(u, n.u); connect(n.y, y); end M;~~>{\"$context\":{\"cdl\":\"urn:cdl-cxf-profile:2\"},\"$graph\":[{\"$id\":\"#\",\"$type\":\"cdl:Composite\",\"cdl:connections\":[[{\"$id\":\"#u\"},{\"$id\":\"#n.u\"}],[{\"$id\":\"#n.y\"},{\"$id\":\"#y\"}]],\"cdl:connectors\":[{\"$id\":\"#u\"},{\"$id\":\"#y\"}],\"cdl:instances\":[{\"$id\":\"#n\"}]},{\"$id\":\"#u\",\"$type\":\"cdl:BooleanInput\"},{\"$id\":\"#y\",\"$type\":\"cdl:BooleanOutput\"},{\"$id\":\"#n\",\"$type\":\"cdl:Elementary\",\"cdl:connectors\":[{\"$id\":\"#n.u\"},{\"$id\":\"#n.y\"}],\"cdl:kind\":\"Logical.Not\",\"cdl:parameters\":{}},{\"$id\":\"#n.u\",\"$type\":\"cdl:BooleanInput\"},{\"$id\":\"#n.y\",\"$type\":\"cdl:BooleanOutput\"}]}|";

fn words_of(alloc: Global, text: &str) -> Result<Vec<String>, Fail> {
    let mut words = Vec::new(alloc);
    for word in text.split(' ') {
        words.push(word.to_string(alloc)?)?;
    }
    Ok(words)
}

// The files of a job.
fn files_of(alloc: Global, given: &Given<'_>, devices: Devices) -> Result<MemFiles, Fail>
    ensures { IfOk result (λ files. files.begun ≡ 0) }
{
    let mut files = MemFiles::new(alloc);
    files.put("m.mo", given.model)?;
    files.put("s.mo", given.other)?;
    files.put("t.csv", given.table)?;
    files.piece(devices.read.max(1));
    files.fail(devices.files)?;
    Ok(files)
}

// A sink that takes pieces of so many bytes, and whose call of that number fails.
fn sink_of(alloc: Global, piece: usize, failing: u64) -> Result<MemSink, Fail> {
    let mut sink = MemSink::new(alloc, piece.max(1), 4096)?;
    sink.fail(failing)?;
    Ok(sink)
}

// The code that the job ends with.
fn code_of(
    alloc: Global,
    words: &[String],
    files: &mut MemFiles,
    out: &mut MemSink,
    err: &mut MemSink,
) -> u8
    requires { files.old.begun ≤ 2 ^ 32 }
{
    command(alloc, words, files, out, err).code()
}

// A code and the texts on the two sinks.
fn text_of(alloc: Global, code: u8, out: &[u8], err: &[u8]) -> Result<Text, Fail> {
    let mut digits = Buffer::new();
    let mut end = Text::new(alloc);
    end.push(digits.format(code).as_bytes())?;
    end.push(b"~")?;
    end.push(out)?;
    end.push(b"~")?;
    end.push(err)?;
    Ok(end)
}

// What a job ends with while these calls fail: the code, and the texts on the two sinks.
fn end_of(alloc: Global, given: &Given<'_>, devices: Devices) -> Result<Text, Fail> {
    let words = words_of(alloc, given.words)?;
    let mut files = files_of(alloc, given, devices)?;
    let mut out = sink_of(alloc, devices.write, devices.out)?;
    let mut err = sink_of(alloc, 4096, devices.err)?;
    let code = code_of(alloc, &words, &mut files, &mut out, &mut err);
    text_of(alloc, code, out.bytes(), err.bytes())
}

// What the job of this case ends with.
fn end_of_case(alloc: Global, case: &str, devices: Devices) -> Result<Text, Fail> {
    let mut parts = case.split('~');
    let words = parts.next().ok_or("no words")?;
    let model = bytes_of(alloc, parts.next().ok_or("no model")?, LIBRARY)?;
    let other = bytes_of(alloc, parts.next().ok_or("no other model")?, LIBRARY)?;
    let table = bytes_of(alloc, parts.next().ok_or("no table")?, LIBRARY)?;
    let given = Given {
        words,
        model: model.bytes(),
        other: other.bytes(),
        table: table.bytes(),
    };
    end_of(alloc, &given, devices)
}

// Whether the job of this case ends with what is marked.
fn ends_with(alloc: Global, case: &str, want: &str, devices: Devices) -> Result<bool, Fail> {
    let end = end_of_case(alloc, case, devices)?;
    let want = bytes_of(alloc, want, LIBRARY)?;
    Ok(end.bytes() == want.bytes())
}

// Whether the job of this case ends with a write fault where this write to the standard output fails, and these bytes stand there.
fn fails_behind(alloc: Global, case: &str, write: u64, front: &[u8]) -> Result<bool, Fail> {
    let devices = Devices {
        out: write,
        ..SOUND
    };
    let end = end_of_case(alloc, case, devices)?;
    let want = text_of(alloc, 5, front, b"write fault\n")?;
    Ok(end.bytes() == want.bytes())
}

// Whether the job of this case, which prints this text, ends with a write fault behind each front of it that writes of at most 7
// bytes leave, none of them over the end of a line, and prints all of it where the write behind the last one would fail.
fn fails_in_turn(alloc: Global, case: &str, text: &str) -> Result<bool, Fail> {
    let whole = bytes_of(alloc, text, LIBRARY)?;
    let mut front = Text::new(alloc);
    let mut piece = Text::new(alloc);
    let mut write = 1u64;
    for byte in whole.bytes() {
        piece.push(&[*byte])?;
        if piece.bytes().len() == 7 || *byte == b'\n' {
            if !fails_behind(alloc, case, write, front.bytes())? {
                return Ok(false);
            }
            front.push(piece.bytes())?;
            piece = Text::new(alloc);
            write = write.wrapping_add(1);
        }
    }
    let devices = Devices {
        out: write,
        ..SOUND
    };
    let end = end_of_case(alloc, case, devices)?;
    let want = text_of(alloc, 0, whole.bytes(), b"")?;
    Ok(end.bytes() == want.bytes())
}

// A model of 524,288 bytes: behind the block stand blanks.
fn longest_model(alloc: Global) -> Result<Text, Fail> {
    let blanks = [b' '; 4096];
    let mut model = Text::new(alloc);
    model.push(b"block M end M;\n")?;
    model.push(&blanks[..4081])?;
    for _ in 0..127 {
        model.push(&blanks)?;
    }
    Ok(model)
}

// A table of 33,554,432 bytes without a row: behind the header stand blank lines.
fn longest_table(alloc: Global) -> Result<Text, Fail> {
    let lines = [b'\n'; 4096];
    let mut table = Text::new(alloc);
    table.push(b"time,u1,u2\n")?;
    table.push(&lines[..4085])?;
    for _ in 0..8191 {
        table.push(&lines)?;
    }
    Ok(table)
}

// A table of 1,000,001 rows: the last one is too many.
fn table_of_many_rows(alloc: Global) -> Result<Text, Fail> {
    let mut table = Text::new(alloc);
    table.push(b"time,u1,u2\n")?;
    for time in 0..1_000_001u32 {
        let mut digits = Buffer::new();
        table.push(digits.format(time).as_bytes())?;
        table.push(b",1,0\n")?;
    }
    Ok(table)
}

// Whether the run of GATES over this table ends so.
fn gates_end_so(alloc: Global, table: &[u8], want: &str) -> Result<bool, Fail> {
    let model = bytes_of(alloc, GATES, LIBRARY)?;
    let given = Given {
        words: RUN,
        model: model.bytes(),
        other: b"",
        table,
    };
    let end = end_of(alloc, &given, SOUND)?;
    let want = bytes_of(alloc, want, LIBRARY)?;
    Ok(end.bytes() == want.bytes())
}

// Whether the run of this model over a table without ticks ends so.
fn model_ends_so(alloc: Global, model: &[u8], want: &[u8]) -> Result<bool, Fail> {
    let given = Given {
        words: RUN,
        model,
        other: b"",
        table: b"time\n",
    };
    let end = end_of(alloc, &given, SOUND)?;
    Ok(end.bytes() == want)
}

// The calls that fail, in three numbers.
fn failing_calls(words: &str) -> Result<Devices, Fail> {
    let mut numbers = words.split(' ');
    Ok(Devices {
        files: numbers.next().ok_or("no files")?.parse()?,
        out: numbers.next().ok_or("no output")?.parse()?,
        err: numbers.next().ok_or("no error")?.parse()?,
        ..SOUND
    })
}

#[test]
fn jobs_end_so(rt: HostRuntime) -> Result<(), Fail> {
    let alloc = rt.alloc();
    for line in CASES.lines() {
        let (case, want) = line.split_once('>').ok_or("no end")?;
        assert!(rt; ends_with(alloc, case, want, SOUND)?, "{line}");
    }
    for line in RULES.lines() {
        let (case, want) = line.split_once('>').ok_or("no end")?;
        assert!(rt; ends_with(alloc, case, want, SOUND)?, "{line}");
    }
    for line in PHASES.lines() {
        let (case, want) = line.split_once('>').ok_or("no end")?;
        assert!(rt; ends_with(alloc, case, want, SOUND)?, "{line}");
    }
    for line in DOCUMENTS.lines() {
        let (case, want) = line.split_once('>').ok_or("no end")?;
        assert!(rt; ends_with(alloc, case, want, SOUND)?, "{line}");
    }
    for line in TABLES.lines() {
        let (table, want) = line.split_once('>').ok_or("no end")?;
        let table = bytes_of(alloc, table, LIBRARY)?;
        assert!(rt; gates_end_so(alloc, table.bytes(), want)?, "{line}");
    }
    for words in NO_JOBS.lines() {
        let given = Given {
            words,
            model: b"",
            other: b"",
            table: b"",
        };
        let end = end_of(alloc, &given, SOUND)?;
        assert!(rt; end.bytes() == USAGE, "{words}");
    }
    Ok(())
}

#[test]
fn limits_are_exact(rt: HostRuntime) -> Result<(), Fail> {
    let alloc = rt.alloc();
    let mut table = longest_table(alloc)?;
    assert!(rt;
        gates_end_so(alloc, table.bytes(), "0~time,y|~")?,
        "longest table"
    );
    table.push(b"\n")?;
    assert!(rt;
        gates_end_so(alloc, table.bytes(), "1~~t.csv: C60 table too long|")?,
        "table too long"
    );
    for line in WIRES.lines() {
        let (case, want) = line.split_once('>').ok_or("no end")?;
        assert!(rt; ends_with(alloc, case, want, SOUND)?, "{line}");
    }
    let many = table_of_many_rows(alloc)?;
    assert!(rt;
        gates_end_so(
            alloc,
            many.bytes(),
            "1~~t.csv:1000002:1: C66 too many ticks|"
        )?,
        "too many rows"
    );
    let mut model = longest_model(alloc)?;
    assert!(rt;
        model_ends_so(alloc, model.bytes(), b"0~time\n~")?,
        "longest model"
    );
    model.push(b" ")?;
    assert!(rt;
        model_ends_so(
            alloc,
            model.bytes(),
            b"1~~m.mo:2:524274: C1 model file too long\n"
        )?,
        "model too long"
    );
    Ok(())
}

#[test]
fn pieces_of_any_size_end_alike(rt: HostRuntime) -> Result<(), Fail> {
    let alloc = rt.alloc();
    for piece in [1usize, 7, 4096] {
        let devices = Devices {
            read: piece,
            write: piece,
            ..SOUND
        };
        for line in CASES.lines() {
            let (case, want) = line.split_once('>').ok_or("no end")?;
            assert!(rt; ends_with(alloc, case, want, devices)?, "{piece}: {line}");
        }
    }
    Ok(())
}

#[test]
fn each_call_fails_in_turn(rt: HostRuntime) -> Result<(), Fail> {
    let alloc = rt.alloc();
    for line in FAILING_CALLS.lines() {
        let (calls, want) = line.split_once('>').ok_or("no end")?;
        assert!(rt;
            ends_with(alloc, TWO_MODELS, want, failing_calls(calls)?)?,
            "{line}"
        );
    }
    for line in WRITES.lines() {
        let (case, text) = line.split_once('>').ok_or("no text")?;
        assert!(rt; fails_in_turn(alloc, case, text)?, "{line}");
    }
    Ok(())
}
