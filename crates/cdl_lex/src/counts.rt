// The limits of `if` and of operators.
ghost use Rattle.std.specs.Prelude.{◌≡◌, ◌≤◌, ◌&&◌, not};
ghost use Rattle.cdl_source.specs.declared.limits.TheConstants.{MOST_IFS, MOST_OPERATORS};
ghost use Rattle.cdl_lex.specs.Found.{IsFirst};
ghost use Rattle.cdl_lex.specs.Limits as spec;
ghost use Rattle.cdl_lex.specs.Roles.{is_semicolon, is_if, is_operator, is_lead};
ghost use Rattle.cdl_lex.specs.Rules.{HasTooMany};
ghost use Rattle.cdl_lex.specs.TokenList.{LieWithin, Rise};

use crate::role::{Role, role_of};
use cdl_source::{MOST_IFS, MOST_OPERATORS, Token};

/// The `if` and the counted operators since the last `;`, and whether the last token is one behind which no operator counts.
#[derive(Clone, Copy)]
pub(crate) struct Counts {
    ifs: u32,
    operators: u32,
    follows_lead: bool,
}

impl Counts {
    // Behind one token more.
    fn behind(self, role: Role) -> Counts
        requires ifs { self.ifs ≤ MOST_IFS }
        requires operators { self.operators ≤ MOST_OPERATORS }
        ensures ifs { result.ifs ≡ spec.with_token (is_semicolon role) (is_if role) self.ifs }
        ensures operators { result.operators ≡ spec.with_token (is_semicolon role) (is_operator role && not self.follows_lead) self.operators }
        ensures follows_lead { result.follows_lead ≡ is_lead role }
    {
        match role {
            Role::Opening | Role::Lead => Counts {
                follows_lead: true,
                ..self
            },
            Role::Semicolon => Counts {
                ifs: 0,
                operators: 0,
                follows_lead: false,
            },
            Role::If => Counts {
                ifs: self.ifs + 1,
                follows_lead: false,
                ..self
            },
            Role::Operator if !self.follows_lead => Counts {
                operators: self.operators + 1,
                ..self
            },
            _ => Counts {
                follows_lead: false,
                ..self
            },
        }
    }
}

// The first byte of the first `if` or counted operator that is one too many.
pub(crate) fn too_many(bytes: &[u8], tokens: &[Token]) -> Option<u32>
    requires within { LieWithin bytes.now tokens.now }
    requires rise { Rise tokens.now }
    ensures { IsFirst (HasTooMany bytes.now tokens.now) result }
{
    let mut counts = Counts {
        ifs: 0,
        operators: 0,
        follows_lead: false,
    };
    for token in tokens {
        counts = counts.behind(role_of(bytes, *token));
        if counts.ifs > MOST_IFS || counts.operators > MOST_OPERATORS {
            return Some(token.span.start);
        }
    }
    None
}
