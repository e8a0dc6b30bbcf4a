//! The labels of a body and their numbers.
ghost use Rattle.std.specs.Prelude.{◌≡◌, ◌+◌, OnOk, OnErr, IfOk, IfErr};
ghost use Rattle.gs_blank.specs.Numbers.{no_numbers, known, label_number, one_more};

use crate::spreads::Spread;
use gs_model::Refusal;
use std::alloc::Global;
use std::collections::HashMap;
use std::marker::Model;

/// The numbers of the blank nodes of one body, by first appearance, from 1. A contract sees the
/// map from labels to numbers and the last number.
#[derive(Drop)]
pub struct Numbering {
    alloc: Global,
    labels: HashMap<String, u64, Spread>,
    last: u64,
}

impl Model for Numbering {
    ghost use Rattle.std.specs.Prelude.{◌≡◌, map, ℕ};
    ghost use Rattle.std.specs.Coded.{coded×, coded_ℕ, coded_list};
    ghost use Rattle.std.specs.FinMap as finite;
    ghost use Rattle.std.specs.Prelude.{string_bytes};
    ghost use Rattle.gs_blank.specs.Numbers.{Numbers};

    ghost Value = { Numbers };

    ghost coded = { coded× (finite.code (coded_list coded_ℕ) coded_ℕ) coded_ℕ };

    ghost view = { λ n. (finite.from_entries (map (λ e. (string_bytes e.0, e.1)) n.labels.entries), n.last) };
}

impl Numbering {
    /// No node is numbered yet. Labels are hashed under this seed, which shows in nothing but time. Where
    /// strangers choose the labels, it is a random number that is kept from them: whoever knows it can make
    /// labels collide, and each then takes longer than the one before. Takes no memory.
    pub fn new(alloc: Global, seed: u64) -> Self
        ensures { result ≡ no_numbers }
    {
        Numbering {
            alloc,
            labels: HashMap::with_hasher(alloc, Spread::new(seed)),
            last: 0,
        }
    }

    /// The number that a label has, if it has one.
    pub fn number(&self, label: &str) -> Option<u64>
        ensures { result ≡ known self.now label.now }
    {
        self.labels.get(label).copied()
    }

    /// The last number that was given, 0 where there is none.
    pub fn last(&self) -> u64
        ensures { result ≡ self.now.1 }
    {
        self.last
    }

    /// The number of a label: the one that it has, or else the next. After `NoMemory` nothing has
    /// changed.
    pub fn of_label(&mut self, label: &str) -> Result<u64, Refusal>
        ensures value { IfOk result (λ k. k ≡ (label_number self.old label.now).0) }
        ensures ok { OnOk result (self.new ≡ (label_number self.old label.now).1) }
        ensures refused { IfErr result (λ e. e ≡ Refusal.NoMemory) }
        ensures kept { OnErr result (self.new ≡ self.old) }
    {
        match self.labels.get(label).copied() {
            Some(number) => return Ok(number),
            None => {}
        }
        let number = next(self.last)?;
        let key = String::from_str(self.alloc, label)?;
        self.labels.insert(key, number)?;
        self.last = number;
        Ok(number)
    }

    /// The number of a node without a label: the next. After `NoMemory` nothing has changed.
    pub fn fresh(&mut self) -> Result<u64, Refusal>
        ensures value { IfOk result (λ k. k ≡ self.old.1 + 1) }
        ensures ok { OnOk result (self.new ≡ one_more self.old) }
        ensures refused { IfErr result (λ e. e ≡ Refusal.NoMemory) }
        ensures kept { OnErr result (self.new ≡ self.old) }
    {
        let number = next(self.last)?;
        self.last = number;
        Ok(number)
    }
}

/// The number after the last one, if there is one.
fn next(last: u64) -> Result<u64, Refusal>
    ensures value { IfOk result (λ k. k ≡ last + 1) }
    ensures refused { IfErr result (λ e. e ≡ Refusal.NoMemory) }
{
    last.checked_add(1).ok_or(Refusal::NoMemory)
}
