ghost use Rattle.std.specs.Prelude.{◌≡◌, ◌≢◌, ◌<◌, ◌≤◌, ◌+◌, [], ◌∷◌, length, MatchOption, MatchResult, position, decimal};
ghost use Rattle.std.specs.List.{position_or_len};
ghost use Rattle.xl_sched.specs.Tokens.{tokens, is_blank, BeginsToken, IsTokenSplit};
ghost use Rattle.xl_sched.specs.Limits.{most_bytes};
ghost use Rattle.xl_sched.specs.declared.refusal.SchedRefusal.TheVariants.{Count};

use crate::fault::{Cause, LineFault};
use std::marker::Model;

/// The tokens of a line that aren't taken yet. Contracts see it as their list.
#[derive(Drop)]
pub struct Tokens<'a> {
    rest: &'a [u8],
}

impl<'a> Model for Tokens<'a> {
    ghost use Rattle.std.specs.Prelude.{ℕ, List};
    ghost use Rattle.xl_sched.specs.Tokens.{tokens};

    ghost Value = { List (List ℕ) };

    ghost view = { λ t. tokens t.rest.now };

    ghost use Rattle.std.specs.Prelude.{◌≤◌, length};
    ghost use Rattle.xl_sched.specs.Limits.{most_bytes};

    ghost invariant = { λ t. length t.rest.now ≤ most_bytes };
}

impl<'a> Tokens<'a> {
    pub fn of(line: &'a [u8]) -> Self
        requires { length line.now ≤ most_bytes }
        ensures { result ≡ tokens line.now }
    {
        Tokens { rest: line }
    }

    /// Takes the next token.
    pub fn next(&mut self) -> Option<&'a [u8]>
        ensures { MatchOption result ((self.old ≡ []) × (self.new ≡ [])) (λ token. self.old ≡ token.now ∷ self.new) }
    {
        let (token, rest) = split_at_blank(without_blanks(self.rest));
        self.rest = rest;
        if token.is_empty() { None } else { Some(token) }
    }

    /// The first token that is left, and those after it.
    pub(crate) fn first(&self) -> Option<(&'a [u8], Tokens<'a>)>
        ensures { MatchOption result (self.now ≡ []) (λ first. self.now ≡ first.0.now ∷ first.1) }
    {
        let (token, rest) = split_at_blank(without_blanks(self.rest));
        if token.is_empty() {
            None
        } else {
            Some((token, Tokens { rest }))
        }
    }

    /// The first four tokens that are left, and those after them.
    pub(crate) fn four_and_others(
        &self,
    ) -> Option<(&'a [u8], &'a [u8], &'a [u8], &'a [u8], Tokens<'a>)>
        ensures { MatchOption result (length self.now < 4)
            (λ four. self.now ≡ four.0.now ∷ four.1.now ∷ four.2.now ∷ four.3.now ∷ four.4) }
    {
        let (first, rest) = self.first()?;
        let (second, rest) = rest.first()?;
        let (third, rest) = rest.first()?;
        let (fourth, rest) = rest.first()?;
        Some((first, second, third, fourth, rest))
    }

    fn only_one(&self) -> Option<&'a [u8]>
        ensures { MatchOption result (length self.now ≢ 1) (λ token. self.now ≡ token.now ∷ []) }
    {
        let (token, rest) = self.first()?;
        match rest.first() {
            None => Some(token),
            Some(_) => None,
        }
    }

    fn only_two(&self) -> Option<(&'a [u8], &'a [u8])>
        ensures { MatchOption result (length self.now ≢ 2) (λ two. self.now ≡ two.0.now ∷ two.1.now ∷ []) }
    {
        let (first, rest) = self.first()?;
        let second = rest.only_one()?;
        Some((first, second))
    }

    /// The three tokens that are left, if they are three.
    pub fn only_three(&self) -> Option<(&'a [u8], &'a [u8], &'a [u8])>
        ensures { MatchOption result (length self.now ≢ 3)
            (λ three. self.now ≡ three.0.now ∷ three.1.now ∷ three.2.now ∷ []) }
    {
        let (first, rest) = self.first()?;
        let (second, third) = rest.only_two()?;
        Some((first, second, third))
    }

    fn only_four(&self) -> Option<(&'a [u8], &'a [u8], &'a [u8], &'a [u8])>
        ensures { MatchOption result (length self.now ≢ 4)
            (λ four. self.now ≡ four.0.now ∷ four.1.now ∷ four.2.now ∷ four.3.now ∷ []) }
    {
        let (first, rest) = self.first()?;
        let (second, third, fourth) = rest.only_three()?;
        Some((first, second, third, fourth))
    }

    /// The five tokens that are left, if they are five.
    pub fn only_five(&self) -> Option<(&'a [u8], &'a [u8], &'a [u8], &'a [u8], &'a [u8])>
        ensures { MatchOption result (length self.now ≢ 5)
            (λ five. self.now ≡ five.0.now ∷ five.1.now ∷ five.2.now ∷ five.3.now ∷ five.4.now ∷ []) }
    {
        let (first, rest) = self.first()?;
        let (second, third, fourth, fifth) = rest.only_four()?;
        Some((first, second, third, fourth, fifth))
    }

    /// That no token is left. Refused for another count.
    pub fn none(&self) -> Result<(), LineFault<'a>>
        ensures { MatchResult result
            (λ _. self.now ≡ [])
            (λ fault. (length self.now ≢ 0) × (fault ≡ Count (decimal (length self.now + 1)))) }
    {
        match self.first() {
            None => Ok(()),
            Some(_) => Err(self.miscounted()),
        }
    }

    /// The one token that is left. Refused for another count.
    pub fn one(&self) -> Result<&'a [u8], LineFault<'a>>
        ensures { MatchResult result
            (λ token. self.now ≡ token.now ∷ [])
            (λ fault. (length self.now ≢ 1) × (fault ≡ Count (decimal (length self.now + 1)))) }
    {
        match self.only_one() {
            Some(one) => Ok(one),
            None => Err(self.miscounted()),
        }
    }

    /// The two tokens that are left. Refused for another count.
    pub fn two(&self) -> Result<(&'a [u8], &'a [u8]), LineFault<'a>>
        ensures { MatchResult result
            (λ pair. self.now ≡ pair.0.now ∷ pair.1.now ∷ [])
            (λ fault. (length self.now ≢ 2) × (fault ≡ Count (decimal (length self.now + 1)))) }
    {
        match self.only_two() {
            Some(two) => Ok(two),
            None => Err(self.miscounted()),
        }
    }

    /// The three tokens that are left. Refused for another count.
    pub fn three(&self) -> Result<(&'a [u8], &'a [u8], &'a [u8]), LineFault<'a>>
        ensures { MatchResult result
            (λ three. self.now ≡ three.0.now ∷ three.1.now ∷ three.2.now ∷ [])
            (λ fault. (length self.now ≢ 3) × (fault ≡ Count (decimal (length self.now + 1)))) }
    {
        match self.only_three() {
            Some(three) => Ok(three),
            None => Err(self.miscounted()),
        }
    }

    /// The four tokens that are left. Refused for another count.
    pub fn four(&self) -> Result<(&'a [u8], &'a [u8], &'a [u8], &'a [u8]), LineFault<'a>>
        ensures { MatchResult result
            (λ four. self.now ≡ four.0.now ∷ four.1.now ∷ four.2.now ∷ four.3.now ∷ [])
            (λ fault. (length self.now ≢ 4) × (fault ≡ Count (decimal (length self.now + 1)))) }
    {
        match self.only_four() {
            Some(four) => Ok(four),
            None => Err(self.miscounted()),
        }
    }

    /// The five tokens that are left. Refused for another count.
    pub fn five(&self) -> Result<(&'a [u8], &'a [u8], &'a [u8], &'a [u8], &'a [u8]), LineFault<'a>>
        ensures { MatchResult result
            (λ five. self.now ≡ five.0.now ∷ five.1.now ∷ five.2.now ∷ five.3.now ∷ five.4.now ∷ [])
            (λ fault. (length self.now ≢ 5) × (fault ≡ Count (decimal (length self.now + 1)))) }
    {
        match self.only_five() {
            Some(five) => Ok(five),
            None => Err(self.miscounted()),
        }
    }

    /// The first two tokens that are left, and the others. Refused if there are fewer.
    pub fn two_and_others(&self) -> Result<(&'a [u8], &'a [u8], Tokens<'a>), LineFault<'a>>
        ensures { MatchResult result
            (λ two. self.now ≡ two.0.now ∷ two.1.now ∷ two.2)
            (λ fault. (length self.now < 2) × (fault ≡ Count (decimal (length self.now + 1)))) }
    {
        let Some((first, rest)) = self.first() else {
            return Err(self.miscounted());
        };
        match rest.first() {
            Some((second, others)) => Ok((first, second, others)),
            None => Err(self.miscounted()),
        }
    }

    /// The first three tokens that are left, and the others. Refused if there are fewer.
    pub fn three_and_others(
        &self,
    ) -> Result<(&'a [u8], &'a [u8], &'a [u8], Tokens<'a>), LineFault<'a>>
        ensures { MatchResult result
            (λ three. self.now ≡ three.0.now ∷ three.1.now ∷ three.2.now ∷ three.3)
            (λ fault. (length self.now < 3) × (fault ≡ Count (decimal (length self.now + 1)))) }
    {
        let Some((first, rest)) = self.first() else {
            return Err(self.miscounted());
        };
        match rest.two_and_others() {
            Ok((second, third, others)) => Ok((first, second, third, others)),
            Err(_) => Err(self.miscounted()),
        }
    }

    /// The refusal of this many tokens, the word before them counted.
    pub fn miscounted(&self) -> LineFault<'a>
        ensures { result ≡ Count (decimal (length self.now + 1)) }
    {
        LineFault::with_number(Cause::Count, self.count() as u64 + 1)
    }

    /// How many they are.
    pub fn count(&self) -> usize
        ensures value { result ≡ length self.now }
        ensures few { result ≤ most_bytes + 1 }
    {
        let mut left = Tokens { rest: self.rest };
        let mut count = 0;
        while left.next().is_some() {
            count += 1;
        }
        count
    }
}

/// The bytes without the blanks at their front.
fn without_blanks(mut bytes: &[u8]) -> &[u8]
    ensures same { tokens result.now ≡ tokens bytes.entry.now }
    ensures front { BeginsToken result.now }
    ensures shorter { length result.now ≤ length bytes.entry.now }
{
    while let [first, rest @ ..] = bytes {
        if !is_blank(*first) {
            break;
        }
        bytes = rest;
    }
    bytes
}

/// The bytes before the first blank, and the others.
fn split_at_blank(bytes: &[u8]) -> (&[u8], &[u8])
    ensures { IsTokenSplit bytes.now result.0.now result.1.now }
{
    bytes.split_at(first_blank(bytes))
}

/// Where the first blank stands, or the end.
fn first_blank(bytes: &[u8]) -> usize
    ensures { result ≡ position_or_len is_blank bytes.now }
{
    blank_place(bytes).unwrap_or(bytes.len())
}

fn blank_place(bytes: &[u8]) -> Option<usize>
    ensures { result ≡ position is_blank bytes.now }
{
    bytes.iter().position(|&b| is_blank(b))
}

fn is_blank(b: u8) -> bool
    ensures { result ≡ is_blank b }
{
    b == b' ' || b == b'\t'
}
