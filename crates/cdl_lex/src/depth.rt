// The limit of nesting.
ghost use Rattle.std.specs.Prelude.{◌≡◌, ◌≤◌, ◌+◌, ◌==◌, if◌then◌else◌};
ghost use Rattle.cdl_source.specs.declared.limits.TheConstants.{DEEPEST_NESTING};
ghost use Rattle.cdl_lex.specs.Found.{IsFirst};
ghost use Rattle.cdl_lex.specs.Limits as spec;
ghost use Rattle.cdl_lex.specs.Roles.{is_end};
ghost use Rattle.cdl_lex.specs.Rules.{HasTooDeep};
ghost use Rattle.cdl_lex.specs.TokenList.{LieWithin, Rise};

use crate::role::{Role, role_of};
use cdl_source::{DEEPEST_NESTING, Token};

/// The open brackets, the open blocks, packages and loops, and whether the last token is `end`.
#[derive(Clone, Copy)]
pub(crate) struct Depth {
    brackets: u32,
    classes: u32,
    follows_end: bool,
}

impl Depth {
    fn brackets_behind(self, role: Role) -> u32
        requires { self.brackets ≤ DEEPEST_NESTING }
        ensures { result ≡ spec.with_bracket role self.brackets }
    {
        match role {
            Role::Opening => self.brackets + 1,
            Role::Closing => self.brackets.saturating_sub(1),
            _ => self.brackets,
        }
    }

    fn classes_behind(self, role: Role) -> u32
        requires { self.classes ≤ DEEPEST_NESTING }
        ensures { result ≡ spec.with_class role self.follows_end self.classes }
    {
        match role {
            Role::Class => self.classes + 1,
            Role::For if !self.follows_end => self.classes + 1,
            Role::End => self.classes.saturating_sub(1),
            _ => self.classes,
        }
    }

    // Behind one token more.
    fn behind(self, role: Role) -> Depth
        requires { self.brackets + self.classes ≤ DEEPEST_NESTING }
        ensures brackets { result.brackets ≡ spec.with_bracket role self.brackets }
        ensures classes { result.classes ≡ (if self.brackets == 0 then spec.with_class role self.follows_end self.classes else self.classes) }
        ensures follows_end { result.follows_end ≡ is_end role }
    {
        Depth {
            brackets: self.brackets_behind(role),
            classes: if self.brackets == 0 {
                self.classes_behind(role)
            } else {
                self.classes
            },
            follows_end: matches!(role, Role::End),
        }
    }
}

// The first byte of the first token that raises the depth above its limit.
pub(crate) fn too_deep(bytes: &[u8], tokens: &[Token]) -> Option<u32>
    requires within { LieWithin bytes.now tokens.now }
    requires rise { Rise tokens.now }
    ensures { IsFirst (HasTooDeep bytes.now tokens.now) result }
{
    let mut depth = Depth {
        brackets: 0,
        classes: 0,
        follows_end: false,
    };
    for token in tokens {
        depth = depth.behind(role_of(bytes, *token));
        if depth.brackets + depth.classes > DEEPEST_NESTING {
            return Some(token.span.start);
        }
    }
    None
}
