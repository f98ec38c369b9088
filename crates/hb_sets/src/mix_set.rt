//! A set of numbers below 1,024, a bit for each.
ghost use Rattle.std.specs.Prelude.{◌≡◌, ℕ, ◌<◌, ◌↔◌, IsTrue, IfSome, IsNone};
ghost use Rattle.hb_sets.specs.Set.{Set, In, Inside, IsFirstOutside, AllBelow, contains, insert, union, difference, is_subset, empty};
ghost use Rattle.hb_sets.specs.Words.{members, IsWordOutside, IsFirstBit, OutsideNone};

use std::marker::Model;

/// A finite set of numbers below 1,024. It has a fixed size, and no call takes memory.
#[derive(Drop)]
pub struct MixSet {
    words: [u64; 16],
}

impl Model for MixSet {
    ghost use Rattle.hb_sets.specs.Set.{Set, set_code};
    ghost use Rattle.hb_sets.specs.Words.{members};

    ghost Value = { Set };

    ghost coded = { set_code };

    ghost view = { λ s. members s.words };
}

impl MixSet {
    /// The set without members.
    pub fn empty() -> MixSet
        ensures { result ≡ empty }
    {
        MixSet { words: [0; 16] }
    }

    /// Whether `n` is a member. No number of 1,024 or more is.
    pub fn has(&self, n: u16) -> bool
        ensures member { result ≡ contains self.now n }
        ensures below { IsTrue result → n < 1024 }
    {
        n < 1024 && (self.words[usize::from(n / 64)] >> (n % 64)) & 1 == 1
    }

    /// The members, and `n`.
    pub fn with(&self, n: u16) -> MixSet
        requires { n < 1024 }
        ensures { result ≡ insert self.now n }
    {
        let mut words = self.words;
        words[usize::from(n / 64)] |= 1 << (n % 64);
        MixSet { words }
    }

    /// The members of either set.
    pub fn union(&self, other: &MixSet) -> MixSet
        ensures { result ≡ union self.now other.now }
    {
        let mut words = self.words;
        for i in 0..16 {
            words[i] |= other.words[i];
        }
        MixSet { words }
    }

    /// The members that `other` hasn't.
    pub fn minus(&self, other: &MixSet) -> MixSet
        ensures { result ≡ difference self.now other.now }
    {
        let mut words = self.words;
        for i in 0..16 {
            words[i] = word_outside(words[i], other.words[i]);
        }
        MixSet { words }
    }

    /// The least member that `other` hasn't. None exactly where there is no such member.
    pub fn first_outside(&self, other: &MixSet) -> Option<u16>
        ensures none { IsNone result → Inside self.now other.now }
        ensures first { IfSome result (λ n. IsFirstOutside self.now other.now n) }
        ensures below { IfSome result (λ n. n < 1024) }
    {
        for i in 0..16u16 {
            let at = usize::from(i);
            if let Some(bit) = first_bit_outside(self.words[at], other.words[at]) {
                return Some(i * 64 + bit);
            }
        }
        None
    }

    /// Whether each member is one of `other`.
    pub fn subset(&self, other: &MixSet) -> bool
        ensures { result ≡ is_subset self.now other.now }
    {
        self.first_outside(other).is_none()
    }

    /// Whether both have the same members.
    pub fn same(&self, other: &MixSet) -> bool
        ensures { IsTrue result ↔ (self.now ≡ other.now) }
    {
        self.subset(other) && other.subset(self)
    }

    /// The same set once more.
    pub fn copy(&self) -> MixSet
        ensures { result ≡ self.now }
    {
        MixSet { words: self.words }
    }

    /// The law: each member is below 1,024.
    pub fn members_are_small(&self)
        ensures { AllBelow self.now 1024 }
    {
        let _ = &self.words;
    }
}

/// The bits that are set in `a` and not in `b`.
fn word_outside(a: u64, b: u64) -> u64
    ensures { IsWordOutside a b result }
{
    a & !b
}

/// The place of the lowest bit that is set in `a` and not in `b`.
fn first_bit_outside(a: u64, b: u64) -> Option<u16>
    ensures none { IsNone result → OutsideNone a b }
    ensures first { IfSome result (λ n. IsFirstBit a b n) }
{
    let left = a & !b;
    if left == 0 {
        None
    } else {
        Some(left.trailing_zeros() as u16)
    }
}
