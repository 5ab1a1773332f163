ghost use Rattle.std.specs.Prelude.{◌<◌, ◌≤◌, length, MatchOption};
ghost use Rattle.answers.specs.Qualify.{Tells};
ghost use Rattle.rules.specs.Rules.{rule_tree};

use crate::answer::{Answer, Question};
use crate::stack::Stack;
use rules::rule::Rule;

// Reads a rule over lent memory that has room for its answers.
pub(crate) fn read<A: Answer + Copy, Q: Question<A>>(question: &Q, rule: &Rule, lent: &mut [A]) -> A
    requires { 16 ≤ length lent.old }
    ensures { Tells (Q.Question.facts question.now) (rule_tree rule.now) (Q.Question.asks question.now) (A.Answer.isin result) }
{
    let mut stack = Stack::new(lent);
    for node in rule.nodes() {
        stack.take(question, *node);
    }
    stack.pop()
}

/// Reads a rule, for any question and any kind of answer: in the answer are those of the persons asked about who qualify. It needs a lent stack
/// of sixteen answers, whatever they are, and gives nothing where the stack is lower.
pub fn read_rule<A: Answer + Copy, Q: Question<A>>(
    question: &Q,
    rule: &Rule,
    stack: &mut [A],
) -> Option<A>
    ensures { MatchOption result (length stack.old < 16) (λ x. (16 ≤ length stack.old)
        × Tells (Q.Question.facts question.now) (rule_tree rule.now) (Q.Question.asks question.now) (A.Answer.isin x)) }
{
    if stack.len() < 16 {
        return None;
    }
    Some(read(question, rule, stack))
}
