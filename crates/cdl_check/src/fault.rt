// What a check refuses.
use cdl_source::Text;

/// Where a net breaks a rule.
#[derive(Debug, Drop)]
pub enum NetSpot {
    /// At the wire between these two elements: the path of each.
    Wire { left: Text, right: Text },
    /// At the element or the instance of this path.
    Path(Text),
}

/// Why a net has no plan.
#[derive(Debug, Drop)]
pub enum CheckFault {
    /// This rule is broken first, here: C43, C44 or C48 at a wire, C45 or C46 at an element, C50 at an instance.
    Rule { rule: u32, spot: NetSpot },
    OutOfMemory,
}
