ghost use Rattle.std.specs.Prelude.{◌≡◌, ◌<◌, ◌≤◌, true, false, [], ◌∷◌, length};
ghost use Rattle.answers.specs.Stack.{Takes, height};
ghost use Rattle.rules.specs.Trees.{operator};

use crate::answer::{Answer, Question};
use rules::node::Node;
use std::marker::Model;

// A stack of answers in memory that the caller lends: so the reading is asked for, and nothing is allocated. A clause sees the answers, the last first, and how many there is room for.
#[derive(Drop)]
pub(crate) struct Stack<'s, A> {
    lent: &'s mut [A],
    top: usize,
}

impl<'s, A> Model for Stack<'s, A> {
    ghost use Rattle.std.specs.Prelude.{◌≤◌, length};
    ghost use Rattle.answers.specs.Stack.{Stacked, top_down};

    ghost Value = { Stacked A };

    ghost view = { λ s. record { answers = top_down s.top s.lent.now; room = length s.lent.now } };

    ghost invariant = { λ s. s.top ≤ length s.lent.now };
}

impl<'s, A: Copy> Stack<'s, A> {
    pub(crate) fn new(lent: &'s mut [A]) -> Stack<'s, A>
        ensures { result ≡ record { answers = []; room = length lent.old } }
    {
        Stack { lent, top: 0 }
    }

    fn push(&mut self, answer: A)
        requires { length self.old.answers < self.old.room }
        ensures { self.new ≡ record { answers = answer ∷ self.old.answers; room = self.old.room } }
    {
        self.lent[self.top] = answer;
        self.top += 1;
    }

    pub(crate) fn pop(&mut self) -> A
        requires { 0 < length self.old.answers }
        ensures last { self.old ≡ record { answers = result ∷ self.new.answers; room = self.new.room } }
        ensures room { length self.new.answers < self.new.room }
    {
        self.top -= 1;
        self.lent[self.top]
    }
}

impl<'s, A: Answer + Copy> Stack<'s, A> {
    // Takes one node: a leaf's answer goes onto the stack, and an operator puts one answer for the last two.
    pub(crate) fn take<Q: Question<A>>(&mut self, question: &Q, node: Node)
        requires leaf { operator node ≡ false → length self.old.answers < self.old.room }
        requires pair { operator node ≡ true → 2 ≤ length self.old.answers }
        ensures height { length self.new.answers ≡ height (length self.old.answers) node }
        ensures room { self.new.room ≡ self.old.room }
        ensures answers { Takes (Q.Question.facts question.now) (Q.Question.asks question.now) A.Answer.isin node self.old.answers self.new.answers }
    {
        match node {
            Node::Is(leaf) => self.push(question.leaf(leaf)),
            Node::Not(leaf) => self.push(question.leaf(leaf).not(question.standing())),
            Node::And => {
                let second = self.pop();
                let first = self.pop();
                self.push(first.and(second));
            }
            Node::Or => {
                let second = self.pop();
                let first = self.pop();
                self.push(first.or(second));
            }
        }
    }
}
