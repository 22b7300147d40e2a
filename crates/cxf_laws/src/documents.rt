// What reading the document of a net gives.
ghost use Rattle.std.specs.Prelude.{◌≡◌};
ghost use Rattle.cdl_connect.specs.declared.net.Net.{Net};
ghost use Rattle.cdl_connect.specs.WellFormed.{IsWellFormed};
ghost use Rattle.cxf_graph.specs.declared.graph.GivenValue.{GivenValue};
ghost use Rattle.cxf_graph.specs.Document.{document, value_data};
ghost use Rattle.cxf_graph.specs.Reading.{IsGraphOf, in_order, value_of};
ghost use Rattle.cxf_graph.specs.Written.{graph_of};
ghost use Rattle.cxf_laws.specs.Order.{AreOrdered, IsPlainValue};

/// A law: a value of a parameter reads back as it was, where its items are items and its Integers are of 64 bits.
pub fn values_read_back()
    ensures { (v : GivenValue) → IsPlainValue v → value_of (value_data v) ≡ v }
{}

/// A law: the graph that the document of a well-formed net reads as has the same nodes, each block with the same parameters, in
/// byte order of their names.
pub fn parameters_in_order()
    ensures { (n : Net) → IsWellFormed n → AreOrdered (graph_of n).nodes (in_order (graph_of n)).nodes }
{}

/// A law: the document of a well-formed net is one of its graph, with the parameters of each block in byte order of their names.
pub fn net_is_read_back()
    ensures { (n : Net) → IsWellFormed n → IsGraphOf (document (graph_of n)) (in_order (graph_of n)) }
{}
