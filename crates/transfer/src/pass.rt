ghost use Rattle.std.specs.Prelude.{◌≡◌, ℕ, true, false};
ghost use Rattle.bits.specs.Bit.{bit};
ghost use Rattle.model.specs.Facts.{Facts};
ghost use Rattle.transfer.specs.Contents.{Content, Writing, content, writing};
ghost use Rattle.transfer.specs.Lacks.{Lacks};
ghost use Rattle.transfer.specs.Orders.{drop_surplus, each_fact, put_missing};
ghost use Rattle.transfer.specs.Visits.{drop_idle, drop_stays, put_idle, put_stays};

use crate::rows::row_count;
use bits::Bits;
use model::fact::Fact;
use model::reading::Reading;
use model::store::Store;

// What is done of each fact on the way over all of them.
pub(crate) trait Pass {
    // What one visit makes of a store's content: how the store writes, the model, the fact, and the content before.
    ghost step: { Writing → Facts → ℕ → ℕ → ℕ → Content → Content };

    // Nothing is to be done at a fact: the model, the store's facts, and the fact.
    ghost settled: { Facts → Facts → ℕ → ℕ → ℕ → Type 0 };

    // Visits one fact.
    fn visit<S: Store, R: Reading>(store: &mut S, model: &R, fact: Fact)
        ensures { content S.Reading S.Store.own store.new ≡ step (writing S.Store.own) (R.Reading.held model.now) fact.sort fact.x fact.y (content S.Reading S.Store.own store.old) };

    // The lower numbers of a sort at which something is to be done.
    fn unsettled<S: Store, R: Reading>(store: &S, model: &R, sort: u8) -> Bits
        ensures { (x y : ℕ) → bit result.word x ≡ false → settled (R.Reading.held model.now) (S.Reading.held store.now) sort x y };

    // Where nothing is to be done a visit changes nothing.
    ghost idle: { (W : Writing) (M : Facts) (s x y : ℕ) (C : Content) → settled M C.facts s x y → step W M s x y C ≡ C };

    // No visit gives a fact something to do.
    ghost stays: { (W : Writing) (M : Facts) (s x y : ℕ) (C : Content) (a b c : ℕ) → settled M C.facts a b c → settled M (step W M s x y C).facts a b c };
}

// The pass that drops what the model lacks.
pub(crate) struct Drops;

impl Pass for Drops {
    ghost step = { drop_surplus };

    ghost settled = { λ M F s x y. F s x y ≡ true → M s x y ≡ true };

    ghost idle = { drop_idle };

    ghost stays = { drop_stays };

    fn visit<S: Store, R: Reading>(store: &mut S, model: &R, fact: Fact) {
        if !model.holds(fact) {
            store.drop_fact(fact);
        }
    }

    fn unsettled<S: Store, R: Reading>(store: &S, model: &R, sort: u8) -> Bits {
        lacking(store, model, sort)
    }
}

// The pass that puts what the store lacks.
pub(crate) struct Puts;

impl Pass for Puts {
    ghost step = { put_missing };

    ghost settled = { λ M F s x y. M s x y ≡ true → F s x y ≡ true };

    ghost idle = { put_idle };

    ghost stays = { put_stays };

    fn visit<S: Store, R: Reading>(store: &mut S, model: &R, fact: Fact) {
        if model.holds(fact) {
            store.put(fact);
        }
    }

    fn unsettled<S: Store, R: Reading>(store: &S, model: &R, sort: u8) -> Bits {
        lacking(model, store, sort)
    }
}

// The lower numbers x of a sort for which the one reading holds a fact that the other lacks, found row by row.
fn lacking<A: Reading, B: Reading>(held: &A, by: &B, sort: u8) -> Bits
    ensures all { (x y : ℕ) → bit result.word x ≡ false → A.Reading.held held.now sort x y ≡ true → B.Reading.held by.now sort x y ≡ true }
    ensures only { (x : ℕ) → bit result.word x ≡ true → Lacks (A.Reading.held held.now) (B.Reading.held by.now) sort x }
{
    let mut found = Bits::none();
    for y in 0..row_count(sort) {
        found = found.or(held.row(sort, y).minus(by.row(sort, y)));
    }
    found
}

// Visits every fact at which something is to be done, ascending by fact word.
#[tactic(auto, using(crate::proofs::Turns::turns))]
pub(crate) fn visit_all<P: Pass, S: Store, R: Reading>(store: &mut S, model: &R)
    ensures { content S.Reading S.Store.own store.new ≡ each_fact (P.step (writing S.Store.own) (R.Reading.held model.now)) (content S.Reading S.Store.own store.old) }
{
    for sort in 0..7u8 {
        for x in P::unsettled(store, model, sort) {
            for y in 0..64u8 {
                P::visit(store, model, Fact { sort, x, y });
            }
        }
    }
}
