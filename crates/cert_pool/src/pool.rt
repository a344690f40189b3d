// The pool of answers.
ghost use Rattle.std.specs.Prelude.{◌≡◌, ◌≤◌, length, IfOk, IfSome, IsTrue};
ghost use Rattle.kb_linear.specs.Limits.{AreMeasurable};
ghost use Rattle.kb_cert.specs.CertificateText.{is_certificate};
ghost use Rattle.kb_cert.specs.Family.{IsFirstOrder};
ghost use Rattle.cert_pool.specs.Kept.{IsAnswer, IsFor, IsKnown};

use crate::comparing::{are_among, is_same_signature};
use crate::hashing::rule_hash;
use boxcar::Keeps;
use boxcar::tag::Tag;
use kb_cert::{Certificate, Family, more_rules_are_never_earlier, orients, search_from};
use kb_jobs::{FamilySearcher, Searcher};
use kb_term::{Memory, Rule, Signature};
use std::alloc::Global;
use std::sync::Wait;
use std::sync::atomic::AtomicUsize;
use std::sync::atomic::Ordering::SeqCst;

/// In how many chains the kept answers are.
const CHAINS: usize = 4_096;

/// At how many answers of a chain a look goes at most, the newest first.
const LOOKS: u32 = 16;

/// How many answers are kept at most. Each has a copy of its rules.
const KEPT: usize = 4_096;

/// No answer has this index: it ends a chain.
const END: usize = usize::MAX;

/// The answer of a search, with what was asked.
#[derive(Drop)]
struct Found {
    // by what it is found: the sum of the hashes of its rules where a member orders them, else the hash of the last one
    key: u64,
    // the answer before it in its chain
    before: usize,
    family: Family,
    signature: Signature,
    rules: Vec<Rule>,
    answer: Option<Certificate>,
}

/// Each kept answer is true.
struct IsTrueFound;

impl Keeps<Found> for IsTrueFound {
    ghost use Rattle.cert_pool.specs.Kept.{IsTrueResult};

    ghost holds = { λ tag index found. IsTrueResult found };
}

/// By what the answers are found that may decide a search: its family, the hash of each of its rules, their sum, and the hash of
/// the last.
#[derive(Drop)]
struct Keys {
    family: Family,
    each: Vec<u64>,
    all: u64,
    last: u64,
}

impl Keys {
    fn of(alloc: Global, family: Family, rules: &[Rule]) -> Result<Keys, Memory>
        ensures { IfOk result (λ keys. keys.family ≡ family) }
    {
        let mut keys = Keys {
            family,
            each: Vec::with_capacity(alloc, rules.len())?,
            all: 0,
            last: 0,
        };
        for rule in rules {
            keys.last = rule_hash(rule);
            keys.all = keys.all.wrapping_add(keys.last);
            keys.each.push(keys.last)?;
        }
        Ok(keys)
    }
}

/// What a kept answer says of a search.
#[derive(Drop)]
enum Known {
    /// Its answer.
    Answer(Option<Certificate>),
    /// A member of the family before which none orders the rules.
    Bound(Certificate),
    Nothing,
}

/// Answers of searches that threads share: which member of a family of orders is the first that orders given rules.
///
/// What is kept is true, whoever put it there, and nothing is ever removed. An answer decides another search of the same family
/// over the same signature where its rules are among those of that search, and no member orders them, or its member orders all of those.
/// A look goes by hashes to the answers for the same rules, for all but the last, and to those without a member that end with
/// one of the rules. Of each chain it sees the newest 16 answers alone; what it passes over may cost a search and never an answer.
#[derive(Drop)]
pub struct CertPool {
    alloc: Global,
    kept: boxcar::Vec<Found, Global, IsTrueFound>,
    // the newest answer of each chain
    chains: Vec<AtomicUsize>,
}

impl CertPool {
    /// An empty pool.
    pub fn new(alloc: Global) -> Result<CertPool, Memory> {
        let mut chains = Vec::with_capacity(alloc, CHAINS)?;
        for _ in 0..CHAINS {
            chains.push(AtomicUsize::new(END))?;
        }
        let kept = boxcar::Vec::with_rule(alloc, Tag::empty())?;
        Ok(CertPool {
            alloc,
            kept,
            chains,
        })
    }

    /// The first member of the family that orders all rules; none where none does. Where no kept answer decides, `miss` is asked,
    /// and what it answers is kept, unless there is no memory for it.
    pub fn search_by<S: Searcher, R: Wait>(
        &self,
        rt: &R,
        family: Family,
        sig: &Signature,
        rules: &[Rule],
        miss: &S,
    ) -> Result<Option<Certificate>, Memory>
        requires few { length sig.now ≤ 24 }
        requires measurable { AreMeasurable rules.now }
        ensures first { IfOk result (λ found. IsFirstOrder family sig.now rules.now found) }
        ensures text { IfOk result (λ found. IfSome found (λ c. IsTrue (is_certificate sig.now c))) }
    {
        let keys = Keys::of(self.alloc, family, rules)?;
        if let Some(answer) = self.decided(&keys, sig, rules)? {
            return Ok(answer);
        }
        let answer = match self.look(&keys, keys.all.wrapping_sub(keys.last), sig, rules)? {
            Known::Answer(answer) => answer,
            Known::Bound(start) => miss.search_from(rt, family, sig, rules, start)?,
            Known::Nothing => miss.search(rt, family, sig, rules)?,
        };
        self.keep(rt, &keys, sig, rules, &answer).ok();
        Ok(answer)
    }

    // The answer that one for the same rules decides, or one that ends with one of them.
    fn decided(
        &self,
        keys: &Keys,
        sig: &Signature,
        rules: &[Rule],
    ) -> Result<Option<Option<Certificate>>, Memory>
        requires { AreMeasurable rules.now }
        ensures { IfOk result (λ decided. IfSome decided (IsAnswer keys.now.family sig.now rules.now)) }
    {
        if let Known::Answer(answer) = self.look(keys, keys.all, sig, rules)? {
            return Ok(Some(answer));
        }
        for i in 0..keys.each.len() {
            if let Known::Answer(answer) = self.look(keys, keys.each[i], sig, rules)? {
                return Ok(Some(answer));
            }
        }
        Ok(None)
    }

    // What the newest answer of this key for some of the rules says.
    fn look(&self, keys: &Keys, key: u64, sig: &Signature, rules: &[Rule]) -> Result<Known, Memory>
        requires { AreMeasurable rules.now }
        ensures { IfOk result (IsKnown keys.now.family sig.now rules.now) }
    {
        match self.kept_for(keys, key, sig, rules) {
            Some(found) => told_by(found, rules),
            None => Ok(Known::Nothing),
        }
    }

    // The newest answer of this key for some of the rules.
    fn kept_for(&self, keys: &Keys, key: u64, sig: &Signature, rules: &[Rule]) -> Option<&Found>
        ensures { IfSome result (λ found. IsFor keys.now.family sig.now rules.now found.now) }
    {
        let mut index = self.chains.get(chain_of(key))?.load(SeqCst);
        for _ in 0..LOOKS {
            let found = self.kept.get(index)?;
            if found.key == key
                && found.family == keys.family
                && is_same_signature(&found.signature, sig)
                && are_among(&found.rules, rules)
            {
                return Some(found);
            }
            index = found.before;
        }
        None
    }

    // Keeps the answer of a search.
    fn keep<R: Wait>(
        &self,
        rt: &R,
        keys: &Keys,
        sig: &Signature,
        rules: &[Rule],
        answer: &Option<Certificate>,
    ) -> Result<(), Memory>
        requires { IsAnswer keys.now.family sig.now rules.now answer.now }
    {
        let key = if answer.is_some() {
            keys.all
        } else {
            keys.last
        };
        let chain = match self.chains.get(chain_of(key)) {
            Some(chain) if self.kept.count() < KEPT => chain,
            _ => return Ok(()),
        };
        let found = Found {
            key,
            before: chain.load(SeqCst),
            family: keys.family,
            signature: sig.clone()?,
            rules: rules.to_vec(self.alloc)?,
            answer: copy_of(answer)?,
        };
        if let Ok(index) = self.kept.push(rt, found) {
            chain.store(index, SeqCst);
        }
        Ok(())
    }
}

// A copy of an answer.
fn copy_of(answer: &Option<Certificate>) -> Result<Option<Certificate>, Memory>
    ensures { IfOk result (λ copy. copy ≡ answer.now) }
{
    match answer {
        Some(member) => Ok(Some(member.clone()?)),
        None => Ok(None),
    }
}

// What a true result for some of the rules says of a search for all of them.
fn told_by(found: &Found, rules: &[Rule]) -> Result<Known, Memory>
    requires measurable { AreMeasurable rules.now }
    requires holds { IsFor found.now.family found.now.signature rules.now found.now }
    ensures { IfOk result (IsKnown found.now.family found.now.signature rules.now) }
{
    more_rules_are_never_earlier();
    match &found.answer {
        None => Ok(Known::Answer(None)),
        Some(member) => {
            let member = member.clone()?;
            if orients(&member, rules) {
                Ok(Known::Answer(Some(member)))
            } else {
                Ok(Known::Bound(member))
            }
        }
    }
}

// The chain of a key.
fn chain_of(key: u64) -> usize {
    (key >> 32) as usize % CHAINS
}

impl Searcher for CertPool {
    fn search_from<R: Wait>(
        &self,
        rt: &R,
        family: Family,
        sig: &Signature,
        rules: &[Rule],
        start: Certificate,
    ) -> Result<Option<Certificate>, Memory> {
        let keys = Keys::of(self.alloc, family, rules)?;
        if let Some(answer) = self.decided(&keys, sig, rules)? {
            return Ok(answer);
        }
        let answer = search_from(self.alloc, family, sig, rules, start)?;
        self.keep(rt, &keys, sig, rules, &answer).ok();
        Ok(answer)
    }

    fn search<R: Wait>(
        &self,
        rt: &R,
        family: Family,
        sig: &Signature,
        rules: &[Rule],
    ) -> Result<Option<Certificate>, Memory> {
        self.search_by(rt, family, sig, rules, &FamilySearcher::new(self.alloc))
    }
}
