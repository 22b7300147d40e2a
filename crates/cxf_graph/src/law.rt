// That the graph of a net can be written, and what reading a written document means.
ghost use Rattle.std.specs.Prelude.{map};
ghost use Rattle.cdl_connect.specs.declared.net.Net.{Net};
ghost use Rattle.cdl_connect.specs.WellFormed.{IsWellFormed};
ghost use Rattle.cdl_network.specs.Lists.{Apart};
ghost use Rattle.cxf_graph.specs.declared.graph.Graph.{Graph};
ghost use Rattle.cxf_graph.specs.Document.{IsWritable, document};
ghost use Rattle.cxf_graph.specs.Reading.{AreFine, IsGraphOf, in_order};
ghost use Rattle.cxf_graph.specs.Written.{graph_of};

/// The graph of a well-formed net can be written. A law: it has no code that runs.
pub fn net_is_writable()
    ensures { (n : Net) → IsWellFormed n → IsWritable (graph_of n) }
{}

/// A written document is one of the same graph, with the parameters of each block in byte order of their names. A law: it has no
/// code that runs.
pub fn written_is_read()
    ensures { (g : Graph) → AreFine g.nodes → Apart (map (λ n. n.id) g.nodes) → IsGraphOf (document g) (in_order g) }
{}
