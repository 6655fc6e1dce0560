//! The recognizer of the grammar: what may come next in a segment. `grammar.rt` asks it of trees, and `spot.rt` and
//! `rows.rt` of rows.

ghost use Rattle.std.specs.Prelude.{◌≡◌, true, false};
ghost use Rattle.bz_tree.specs.private.Machine.{ends, may_end, after_goal, in_chain, next_wanted, next_after, next, begin, later, group_role};

use crate::grammar::role::Role;
use crate::tree::GroupKind;

/// What is being read: a Test with what may follow it, or (Target) a Primary, or (Clause) a Chain.
#[derive(Clone, Copy)]
pub(crate) enum Goal {
    /// The tests of a statement, before an assignment operator too.
    Left,
    /// The tests after an assignment operator.
    Right,
    /// A test and nothing more.
    Alone,
    /// The key of an entry.
    Key,
    /// The element of a list comprehension, or the value of a dict comprehension.
    Element,
    /// The key of a dict comprehension.
    EntryKey,
    /// An index, or where a slice begins.
    From,
    /// Where a slice ends.
    To,
    /// The step of a slice.
    Step,
    /// A variable of a comprehension.
    Target,
    /// The sequence or a condition of a comprehension.
    Clause,
}

/// What may come next. The flag says that the condition of a conditional is being read.
#[derive(Clone, Copy)]
pub(crate) enum Stage {
    /// Nothing: this is no part of the grammar.
    Refused,
    /// The start of a statement, which may be empty.
    Statement,
    /// An operand, or a prefix.
    Wants(Goal, bool),
    /// What may stand after an operand.
    Has(Goal, bool),
    /// What may stand directly after a number.
    HasNumber(Goal, bool),
    /// The name after a dot.
    Names(Goal, bool),
    /// The `in` of `not in`.
    Excludes(Goal, bool),
    /// The start of a goal that may be empty.
    Begins(Goal),
    /// The start of an argument.
    Argument,
    /// What may stand after the name that begins an argument.
    Keyword,
    /// The bracket of a load.
    Loads,
    /// A string of a load.
    Text,
    /// A string of a load, or a name for it.
    LoadArgument,
    /// The `=` after that name.
    Renames,
    /// Nothing more.
    Done,
}

fn ends(goal: Goal) -> bool
    ensures { result ≡ ends goal }
{
    !matches!(
        goal,
        Goal::Key | Goal::Element | Goal::EntryKey | Goal::Target
    )
}

/// Whether a segment may end here.
#[inline(always)]
pub(crate) fn may_end(stage: Stage) -> bool
    ensures { result ≡ may_end stage }
{
    match stage {
        Stage::Has(goal, condition) | Stage::HasNumber(goal, condition) => !condition && ends(goal),
        Stage::Begins(Goal::To | Goal::Step) => true,
        Stage::Statement | Stage::Keyword | Stage::Done => true,
        _ => false,
    }
}

// What stands after a goal: after its Test, its Primary (Target), or its Chain (Clause).
#[inline(always)]
fn after_goal(goal: Goal, role: Role) -> Stage
    ensures { result ≡ after_goal goal role }
{
    match (goal, role) {
        (Goal::Left, Role::Comma) => Stage::Wants(Goal::Left, false),
        (Goal::Left, Role::Equals | Role::Augmented) => Stage::Wants(Goal::Right, false),
        (Goal::Right, Role::Comma) => Stage::Wants(Goal::Right, false),
        (Goal::Key, Role::Colon) => Stage::Wants(Goal::Alone, false),
        (Goal::EntryKey, Role::Colon) => Stage::Wants(Goal::Element, false),
        (Goal::From, Role::Colon) => Stage::Begins(Goal::To),
        (Goal::To, Role::Colon) => Stage::Begins(Goal::Step),
        (Goal::Element | Goal::Clause, Role::For) => Stage::Wants(Goal::Target, false),
        (Goal::Target, Role::Comma) => Stage::Wants(Goal::Target, false),
        (Goal::Target, Role::In) => Stage::Wants(Goal::Clause, false),
        (Goal::Clause, Role::If) => Stage::Wants(Goal::Clause, false),
        (_, Role::If) => in_chain(goal, Stage::Wants(goal, true)),
        _ => Stage::Refused,
    }
}

// A stage of chains: a Target has none.
fn in_chain(goal: Goal, next: Stage) -> Stage
    ensures { result ≡ in_chain goal next }
{
    match goal {
        Goal::Target => Stage::Refused,
        _ => next,
    }
}

#[inline(always)]
fn next_wanted(goal: Goal, condition: bool, role: Role) -> Stage
    ensures { result ≡ next_wanted goal condition role }
{
    match role {
        Role::Name | Role::Value | Role::Bracket => Stage::Has(goal, condition),
        Role::Number => Stage::HasNumber(goal, condition),
        Role::Sum | Role::Tilde | Role::Not => in_chain(goal, Stage::Wants(goal, condition)),
        _ => Stage::Refused,
    }
}

#[inline(always)]
fn next_after(goal: Goal, condition: bool, role: Role) -> Stage
    ensures { result ≡ next_after goal condition role }
{
    match role {
        Role::Dot => Stage::Names(goal, condition),
        Role::Suffix => Stage::Has(goal, condition),
        Role::Sum | Role::Star | Role::Operator => in_chain(goal, Stage::Wants(goal, condition)),
        Role::In if !matches!(goal, Goal::Target) => Stage::Wants(goal, condition),
        Role::Not => in_chain(goal, Stage::Excludes(goal, condition)),
        _ if !condition => after_goal(goal, role),
        Role::Else => Stage::Wants(goal, false),
        _ => Stage::Refused,
    }
}

/// The stage after a node of this role.
#[inline(never)]
pub(crate) fn next(stage: Stage, role: Role) -> Stage
    ensures { result ≡ next stage role }
{
    match (stage, role) {
        (Stage::Wants(goal, condition), _) => next_wanted(goal, condition, role),
        (Stage::HasNumber(_, _), Role::Dot) => Stage::Refused,
        (Stage::Has(goal, condition) | Stage::HasNumber(goal, condition), _) => {
            next_after(goal, condition, role)
        }
        (Stage::Names(goal, condition), Role::Name) => Stage::Has(goal, condition),
        (Stage::Excludes(goal, condition), Role::In) => Stage::Wants(goal, condition),
        (Stage::Begins(goal), _) => match role {
            Role::Colon => after_goal(goal, role),
            _ => next_wanted(goal, false, role),
        },
        (Stage::Argument, Role::Star | Role::Stars) => Stage::Wants(Goal::Alone, false),
        (Stage::Argument, Role::Name) => Stage::Keyword,
        (Stage::Argument, _) => next_wanted(Goal::Alone, false, role),
        (Stage::Keyword, Role::Equals) => Stage::Wants(Goal::Alone, false),
        (Stage::Keyword, _) => next_after(Goal::Alone, false, role),
        (Stage::Statement, Role::LoadWord) => Stage::Loads,
        (Stage::Statement, _) => next_wanted(Goal::Left, false, role),
        (Stage::Loads, Role::LoadGroup) => Stage::Done,
        (Stage::Text | Stage::LoadArgument, Role::Value) => Stage::Done,
        (Stage::LoadArgument, Role::Name) => Stage::Renames,
        (Stage::Renames, Role::Equals) => Stage::Text,
        _ => Stage::Refused,
    }
}

/// To the stage after a node of this role. The commonest steps come first.
#[inline(always)]
pub(crate) fn advance(stage: &mut Stage, role: Role)
    ensures { stage.new ≡ next stage.old role }
{
    match (*stage, role) {
        (Stage::Wants(goal, condition), Role::Name | Role::Value | Role::Bracket) => {
            *stage = Stage::Has(goal, condition);
        }
        (Stage::Wants(goal, condition), Role::Number) => {
            *stage = Stage::HasNumber(goal, condition);
        }
        (Stage::Statement, Role::Name) => *stage = Stage::Has(Goal::Left, false),
        (Stage::Argument, Role::Name) => *stage = Stage::Keyword,
        (Stage::Keyword, Role::Equals) => *stage = Stage::Wants(Goal::Alone, false),
        (Stage::Has(_, _), Role::Suffix) => {}
        _ => advance_rarely(stage, role),
    }
}

// `next` answers in memory, which `advance` would have to clear at each token.
#[inline(never)]
fn advance_rarely(stage: &mut Stage, role: Role)
    ensures { stage.new ≡ next stage.old role }
{
    *stage = next(*stage, role);
}

/// The stage in which the first segment of a group begins.
pub(crate) fn begin(kind: GroupKind) -> Stage
    ensures { result ≡ begin kind }
{
    match kind {
        GroupKind::Call | GroupKind::RuleCall => Stage::Argument,
        GroupKind::Load => Stage::Text,
        GroupKind::Paren | GroupKind::List => Stage::Wants(Goal::Alone, false),
        GroupKind::Index => Stage::Begins(Goal::From),
        GroupKind::Dict => Stage::Wants(Goal::Key, false),
        GroupKind::ListComp => Stage::Wants(Goal::Element, false),
        GroupKind::DictComp => Stage::Wants(Goal::EntryKey, false),
    }
}

/// The stage in which a segment begins after one that began in this stage.
#[inline(always)]
pub(crate) fn later(stage: Stage) -> Stage
    ensures { result ≡ later stage }
{
    match stage {
        Stage::Text => Stage::LoadArgument,
        _ => stage,
    }
}

/// What a group whose segments are in the grammar is.
pub(crate) fn group_role(kind: GroupKind) -> Role
    ensures { result ≡ group_role kind }
{
    match kind {
        GroupKind::Call | GroupKind::RuleCall | GroupKind::Index => Role::Suffix,
        GroupKind::Load => Role::LoadGroup,
        _ => Role::Bracket,
    }
}
