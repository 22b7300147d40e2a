// The columns of a net.
ghost use Rattle.std.specs.Prelude.{◌≡◌, ◌<◌, ◌++◌, ◌∷◌, [], IfOk, OnOk, cond, length, not};
ghost use Rattle.cdl_network.specs.Dependence.{is_root_input};
ghost use Rattle.cdl_network.specs.Lists.{has_some};
ghost use Rattle.cdl_connect.specs.Nets.{network_of};
ghost use Rattle.cdl_connect.specs.WellFormed.{IsIndexed};
ghost use Rattle.cdl_trace.specs.Columns.{column_of, input_columns, is_root_output, labelled, output_columns};

use cdl_connect::Net;
use cdl_source::{List, OutOfMemory};
use cdl_table::Column;
use std::alloc::Global;

fn is_at_root(net: &Net, x: usize) -> bool
    requires indexed { IsIndexed net.now }
    requires inside { x < length net.now.elements }
    ensures { result ≡ not (has_some ((network_of net.now).parent ((network_of net.now).owner x))) }
{
    let owner = net.elements.items()[x].instance as usize;
    net.instances.items()[owner].parent.is_none()
}

fn is_root_input(net: &Net, x: usize) -> bool
    requires indexed { IsIndexed net.now }
    requires inside { x < length net.now.elements }
    ensures { result ≡ is_root_input (network_of net.now) x }
{
    net.elements.items()[x].input && is_at_root(net, x)
}

fn is_root_output(net: &Net, x: usize) -> bool
    requires indexed { IsIndexed net.now }
    requires inside { x < length net.now.elements }
    ensures { result ≡ is_root_output (network_of net.now) x }
{
    !net.elements.items()[x].input && is_at_root(net, x)
}

// Adds the column of an element, where it is wanted.
fn add_column(
    alloc: Global,
    columns: &mut List<Column>,
    net: &Net,
    x: usize,
    wanted: bool,
) -> Result<(), OutOfMemory>
    requires { x < length net.now.elements }
    ensures { OnOk result (columns.new ≡ cond wanted (columns.old ++ column_of (labelled net.now) x ∷ []) columns.old) }
{
    if wanted {
        let element = &net.elements.items()[x];
        columns.push(Column {
            name: element.name.copy(alloc)?,
            value_type: element.value_type,
        })?;
    }
    Ok(())
}

/// The columns of a net's table: for each input of the root its name and its type, in order.
pub fn input_columns(alloc: Global, net: &Net) -> Result<List<Column>, OutOfMemory>
    requires { IsIndexed net.now }
    ensures { IfOk result (λ columns. columns ≡ input_columns (labelled net.now)) }
{
    let mut columns = List::new(alloc);
    for x in 0..net.elements.items().len() {
        add_column(alloc, &mut columns, net, x, is_root_input(net, x))?;
    }
    Ok(columns)
}

/// The columns of its trace: for each output of the root its name and its type, in order.
pub fn output_columns(alloc: Global, net: &Net) -> Result<List<Column>, OutOfMemory>
    requires { IsIndexed net.now }
    ensures { IfOk result (λ columns. columns ≡ output_columns (labelled net.now)) }
{
    let mut columns = List::new(alloc);
    for x in 0..net.elements.items().len() {
        add_column(alloc, &mut columns, net, x, is_root_output(net, x))?;
    }
    Ok(columns)
}
