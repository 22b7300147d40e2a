// The numbers of the rules that a job can break, each with the text that the command prints for it.

// Texts.

/// C1: model file too long.
pub const MODEL_TOO_LONG: u32 = 1;

/// C2: not UTF-8.
pub const NOT_UTF8: u32 = 2;

/// C3: no token here.
pub const NO_TOKEN: u32 = 3;

/// C4: literal or identifier past its limits.
pub const PAST_LIMITS: u32 = 4;

/// C5: nested too deeply.
pub const NESTED_TOO_DEEPLY: u32 = 5;

/// C6: expression too long.
pub const EXPRESSION_TOO_LONG: u32 = 6;

/// C7: syntax.
pub const SYNTAX: u32 = 7;

/// C8: wrong name after end.
pub const WRONG_END_NAME: u32 = 8;

/// C9: not built yet.
pub const NOT_BUILT: u32 = 9;

// Classes.

/// C10: name declared twice.
pub const DECLARED_TWICE: u32 = 10;

/// C11: name not free.
pub const NAME_NOT_FREE: u32 = 11;

/// C12: name not found.
pub const NAME_NOT_FOUND: u32 = 12;

/// C13: not supported here.
pub const NOT_SUPPORTED: u32 = 13;

/// C14: no such block.
pub const NO_SUCH_BLOCK: u32 = 14;

// Instances and parameters.

/// C20: too many or too deep.
pub const TOO_MANY_OR_TOO_DEEP: u32 = 20;

/// C21: block contains itself.
pub const CONTAINS_ITSELF: u32 = 21;

/// C22: nothing to modify.
pub const NOTHING_TO_MODIFY: u32 = 22;

/// C23: modified twice.
pub const MODIFIED_TWICE: u32 = 23;

/// C24: modifies a final value.
pub const FINAL_MODIFIED: u32 = 24;

/// C25: wrong shape.
pub const WRONG_SHAPE: u32 = 25;

/// C26: wrong type.
pub const WRONG_TYPE: u32 = 26;

/// C27: unknown name or function.
pub const UNKNOWN_NAME: u32 = 27;

/// C28: size out of range.
pub const SIZE_OUT_OF_RANGE: u32 = 28;

/// C29: parameters depend too deeply.
pub const PARAMETERS_TOO_DEEP: u32 = 29;

/// C30: no value.
pub const NO_VALUE: u32 = 30;

/// C31: parameter without a value.
pub const PARAMETER_WITHOUT_VALUE: u32 = 31;

/// C32: parameter out of its condition.
pub const PARAMETER_OUT_OF_CONDITION: u32 = 32;

/// C38: unit too long.
pub const UNIT_TOO_LONG: u32 = 38;

// Connections and loops.

/// C39: too many turns.
pub const TOO_MANY_TURNS: u32 = 39;

/// C40: no such connector.
pub const NO_SUCH_CONNECTOR: u32 = 40;

/// C41: wrong subscript.
pub const WRONG_SUBSCRIPT: u32 = 41;

/// C42: shapes differ.
pub const SHAPES_DIFFER: u32 = 42;

/// C43: two sources or two sinks joined.
pub const TWO_SOURCES_OR_SINKS: u32 = 43;

/// C44: types differ.
pub const TYPES_DIFFER: u32 = 44;

/// C45: more than one source.
pub const MORE_THAN_ONE_SOURCE: u32 = 45;

/// C46: no source.
pub const NO_SOURCE: u32 = 46;

/// C47: too many wires.
pub const TOO_MANY_WIRES: u32 = 47;

/// C48: units differ.
pub const UNITS_DIFFER: u32 = 48;

/// C49: CXF text too long.
pub const CXF_TOO_LONG: u32 = 49;

/// C50: loop without a delay.
pub const LOOP_WITHOUT_DELAY: u32 = 50;

// Tables.

/// C60: table too long.
pub const TABLE_TOO_LONG: u32 = 60;

/// C61: wrong number of fields.
pub const WRONG_FIELD_COUNT: u32 = 61;

/// C62: wrong header.
pub const WRONG_HEADER: u32 = 62;

/// C63: not a time.
pub const NOT_A_TIME: u32 = 63;

/// C64: time doesn't rise.
pub const TIME_DOES_NOT_RISE: u32 = 64;

/// C65: not a value of its type.
pub const NOT_A_VALUE: u32 = 65;

/// C66: too many ticks.
pub const TOO_MANY_TICKS: u32 = 66;

// CXF documents.

/// C70: not a JSON document.
pub const NOT_JSON: u32 = 70;

/// C71: no graph.
pub const NO_GRAPH: u32 = 71;

/// C72: wrong context.
pub const WRONG_CONTEXT: u32 = 72;

/// C73: not a node.
pub const NOT_A_NODE: u32 = 73;

/// C74: two nodes with one @id.
pub const SAME_ID: u32 = 74;

/// C75: unknown type.
pub const UNKNOWN_NODE_TYPE: u32 = 75;

/// C76: wrong members.
pub const WRONG_MEMBERS: u32 = 76;

/// C77: wrong reference.
pub const WRONG_REFERENCE: u32 = 77;

/// C78: no root.
pub const NO_ROOT: u32 = 78;

/// C79: wrong containment.
pub const WRONG_CONTAINMENT: u32 = 79;

/// C80: wrong @id.
pub const WRONG_ID: u32 = 80;

/// C81: not a whole array.
pub const NOT_A_WHOLE_ARRAY: u32 = 81;

/// C82: unknown kind.
pub const UNKNOWN_KIND: u32 = 82;

/// C83: wrong parameter.
pub const WRONG_PARAMETER: u32 = 83;

/// C84: parameter out of its condition.
pub const NODE_OUT_OF_CONDITION: u32 = 84;

/// C85: wrong ports.
pub const WRONG_PORTS: u32 = 85;

/// C86: connection out of scope.
pub const OUT_OF_SCOPE: u32 = 86;

/// C87: too large.
pub const TOO_LARGE: u32 = 87;
