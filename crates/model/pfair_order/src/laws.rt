//! Laws of the PD2 order, and of the first keys among some keys. Each function does nothing: its
//! contract is the law.
ghost use Rattle.std.specs.Prelude.{◌≡◌, ◌≤◌, ◌⊎◌, ◌↔◌, ℕ, List, length, true, AllPairs, Contains, IsPermutation};
ghost use Rattle.std.specs.declared.cmp.Ordering.TheVariants.{Less, Equal};
ghost use Rattle.pfair_weight.specs.Name.{NamesApart};
ghost use Rattle.pfair_order.specs.declared.Key.{Key};
ghost use Rattle.pfair_order.specs.Order.{pd2_cmp, GoesBefore, first_by_rank, AreFirst, EachOnce};

/// What `cmp` computes of two keys is the order: `Less` for what goes before, `Equal` for equal
/// keys.
pub fn comparison_is_the_order()
    ensures before { (k l : Key) → (⟦<crate::Key as Ord>⟧.cmp k l ≡ Less) ↔ GoesBefore k l }
    ensures equal { (k l : Key) → (⟦<crate::Key as Ord>⟧.cmp k l ≡ Equal) ↔ (k ≡ l) }
{}

/// What `==` computes of two keys is true exactly if all four fields are equal.
pub fn equality_is_of_all_fields()
    ensures { (k l : Key) → (⟦<crate::Key as PartialEq>⟧.eq k l ≡ true) ↔ (k ≡ l) }
{}

/// No key goes before itself.
#[tactic(auto, using(crate::proofs::KeyLaws::never_before_itself))]
pub fn order_is_irreflexive()
    ensures { (k : Key) → ¬ GoesBefore k k }
{}

/// What goes before a key goes before all that the key goes before.
#[tactic(auto, using(crate::proofs::KeyLaws::before_through))]
pub fn order_is_transitive()
    ensures { (k l m : Key) → GoesBefore k l → GoesBefore l m → GoesBefore k m }
{}

/// Of two keys one goes before the other, or they are equal.
#[tactic(auto, using(crate::proofs::KeyLaws::one_way))]
pub fn order_is_total()
    ensures { (k l : Key) → GoesBefore k l ⊎ ((k ≡ l) ⊎ GoesBefore l k) }
{}

/// One list alone has the first m keys of some keys.
#[tactic(auto, using(crate::proofs::KeyLaws::keys_total, crate::proofs::RankLemmas::first_unique))]
pub fn first_keys_are_unique()
    ensures { (m : ℕ) (keys xs ys : List Key) →
        AreFirst pd2_cmp m keys xs → AreFirst pd2_cmp m keys ys → xs ≡ ys }
{}

/// Of keys that stand once each, the list that has the first m is that of the ranks below m, rank
/// by rank.
pub fn first_keys_are_by_rank()
    ensures { (m : ℕ) (keys first : List Key) → EachOnce pd2_cmp keys →
        (AreFirst pd2_cmp m keys first ↔ (first ≡ first_by_rank pd2_cmp m keys)) }
{}

/// Keys of different names stand once each.
pub fn keys_of_different_names_stand_once()
    ensures { (keys : List Key) →
        NamesApart (λ k. k.name) keys → EachOnce pd2_cmp keys }
{}

/// The first m keys are at most m.
pub fn first_keys_are_at_most()
    ensures first { (m : ℕ) (keys first : List Key) →
        AreFirst pd2_cmp m keys first → length first ≤ m }
    ensures by_rank { (m : ℕ) (keys : List Key) →
        EachOnce pd2_cmp keys → length (first_by_rank pd2_cmp m keys) ≤ m }
{}

/// The first m keys rise: each goes before all later ones.
pub fn first_keys_rise()
    ensures first { (m : ℕ) (keys first : List Key) →
        AreFirst pd2_cmp m keys first → AllPairs GoesBefore first }
    ensures by_rank { (m : ℕ) (keys : List Key) →
        EachOnce pd2_cmp keys → AllPairs GoesBefore (first_by_rank pd2_cmp m keys) }
{}

/// No two of the first m keys have one name, if no two of the keys have one.
#[tactic(auto, using(crate::proofs::InOrder::first_names))]
pub fn first_keys_have_different_names()
    ensures { (m : ℕ) (keys : List Key) → NamesApart (λ k. k.name) keys →
        NamesApart (λ k. k.name) (first_by_rank pd2_cmp m keys) }
{}

/// Which keys are the first m does not depend on the order in which the keys are listed.
pub fn first_keys_ignore_listing()
    ensures first { (m : ℕ) (keys others first : List Key) →
        IsPermutation keys others → AreFirst pd2_cmp m keys first → AreFirst pd2_cmp m others first }
    ensures by_rank { (m : ℕ) (keys others : List Key) →
        EachOnce pd2_cmp keys → EachOnce pd2_cmp others →
        ((k : Key) → Contains keys k ↔ Contains others k) →
        first_by_rank pd2_cmp m keys ≡ first_by_rank pd2_cmp m others }
{}
