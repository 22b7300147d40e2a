// What holds of the grammar of expressions and arguments.
ghost use Rattle.std.specs.Prelude.{◌≡◌, ◌≤◌, true, List, length, map};
ghost use Rattle.std.specs.List.{list_all};
ghost use Rattle.cdl_tree.specs.declared.class.Modifier.{Modifier as Argument};
ghost use Rattle.cdl_tree.specs.declared.expr.Expr.{Expr as Tree};
ghost use Rattle.cdl_tree.specs.Formed.{is_formed};
ghost use Rattle.cdl_tree.specs.FormedFiles.{formed_modifier};
ghost use Rattle.cdl_tree.specs.Grammar.{ExprOf, ArgsOf};
ghost use Rattle.cdl_tree.specs.Spelled.{are_spelled};
ghost use Rattle.cdl_tree.specs.Words.{Word};
ghost use Rattle.cdl_expressions.specs.Names.{total, names_in, names_of_modifier};

/// Laws, which compute nothing: the expressions and the arguments of a text, whose tokens are spelled as a text has them, are
/// formed.
pub fn formed_expressions()
    ensures expressions { (w : Word) (e : Tree) → ExprOf w e → are_spelled w ≡ true → is_formed e ≡ true }
    ensures arguments { (w : Word) (ms : List Argument) → ArgsOf w ms → are_spelled w ≡ true → list_all formed_modifier ms ≡ true }
{}

/// Laws, which compute nothing: expressions and arguments have at most as many names as tokens.
pub fn few_names()
    ensures expressions { (w : Word) (e : Tree) → ExprOf w e → names_in e ≤ length w }
    ensures arguments { (w : Word) (ms : List Argument) → ArgsOf w ms → total (map names_of_modifier ms) ≤ length w }
{}
