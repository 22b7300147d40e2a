// What is an array in, is an array out.
ghost use Rattle.std.specs.Prelude.{◌≡◌, ℕ, List, Ok};
ghost use Rattle.std.specs.List.{All};
ghost use Rattle.cdl_values.specs.Values.{IsArray};
ghost use Rattle.cdl_values.specs.declared.value.Array.{Array as ArrayOf};
ghost use Rattle.cdl_values.specs.declared.value.ValueType.{ValueType as TypeOf};
ghost use Rattle.cdl_tree.specs.declared.expr.Op.{Op as OpOf};
ghost use Rattle.cdl_array.specs.declared.functions.Function.{Function as FunctionOf};
ghost use Rattle.cdl_array.specs.Functions.{call};
ghost use Rattle.cdl_array.specs.Literals.{literal};
ghost use Rattle.cdl_array.specs.Operators.{binary, unary};
ghost use Rattle.cdl_array.specs.Parts.{part, subscript};
ghost use Rattle.cdl_array.specs.Types.{converted};

/// What operators, literals, subscripts, functions, conversions and parts make of arrays is an array again: of one shape and
/// type, with as many items as its sizes say. It is a law; its contract is all.
pub fn arrays_make_arrays()
    ensures unary { (op : OpOf) (a c : ArrayOf) → IsArray a → unary op a ≡ Ok c → IsArray c }
    ensures binary { (op : OpOf) (a b c : ArrayOf) → binary op a b ≡ Ok c → IsArray c }
    ensures literal { (xs : List ArrayOf) (c : ArrayOf) → All IsArray xs → literal xs ≡ Ok c → IsArray c }
    ensures subscript { (a : ArrayOf) (subs : List ArrayOf) (c : ArrayOf) → IsArray a → subscript a subs ≡ Ok c → IsArray c }
    ensures part { (a : ArrayOf) (is : List ℕ) (c : ArrayOf) → IsArray a → part a is ≡ Ok c → IsArray c }
    ensures call { (f : FunctionOf) (args : List ArrayOf) (c : ArrayOf) → All IsArray args → call f args ≡ Ok c → IsArray c }
    ensures converted { (t : TypeOf) (a c : ArrayOf) → IsArray a → converted t a ≡ Ok c → IsArray c }
{}
