//! The cache of parses and evaluations.
ghost use Rattle.std.specs.Prelude.{◌≡◌, ◌≤◌, false, length, is_some, IfOk, OnOk, OnErr};
ghost use Rattle.turn_amounts.specs.declared.TheConstants.{MOST_CHECKS};
ghost use Rattle.std.specs.NonZero.{non_zero_usize_get};
ghost use Rattle.mk_ast.specs.Parser.{parsed};
ghost use Rattle.mk_eval.specs.Trees.{tree_or_fault};
ghost use Rattle.eval_cache.specs.Keys.{Key, key_of};
ghost use Rattle.eval_cache.specs.Right.{IsRight};
ghost use Rattle.eval_cache.specs.Cache.{empty_cache, size_for, holds_parse, traces_at};
ghost use Rattle.eval_cache.specs.CacheOrder.{Keeps, HandsOut, PutsParse};
ghost use Rattle.eval_cache.specs.CacheUse.{UsesCache};
ghost use Rattle.eval_cache.specs.Held.{AreNewest, evaluations_in, GivesParseOf};
ghost use Rattle.eval_cache.specs.Looks.{AsksChecks, FailsChecking, KeepsAllKept, LooksUnder, TellsAgreementAt, FindsAgreed};

use crate::contents::ContentKey;
use crate::counts::Counts;
use crate::key::EvalKey;
use crate::look::{Look, first_agreeing};
use crate::purpose::{Purpose, put_new};
use lru::LruCache;
use mk_ast::{Makefile, ParseError, ParseFault, parse};
use mk_eval::Parses;
use mk_files::{Content, Files};
use mk_paths::FilesFault;
use read_trace::Evaluation;
use std::alloc::{AllocError, Global};
use std::marker::Model;
use std::num::NonZeroUsize;
use std::rc::Rc;
use turn_amounts::{MOST_ANSWERS, MOST_EVALUATIONS};

/// A file's tree, or its fault.
type Parse = Result<Rc<Makefile>, ParseFault>;

/// Parses and evaluations that are kept to be used again, and how often they were.
///
/// A parse that is kept is the tree of its content, or its fault. An evaluation that is kept is right in
/// every world with its key's settings that agrees with its trace: there the makefile means the same, at
/// the same cost, and its evaluation asks the same.
///
/// If there are too many, what stands last is dropped. What is kept or used goes to the front, so what was used the
/// longest time ago stands last. But if a walk fills the cache with something new, that stands last ([`Purpose`]).
#[derive(Drop)]
pub struct EvalCache {
    alloc: Global,
    purpose: Purpose,
    parses: LruCache<ContentKey, Parse>,
    evals: LruCache<EvalKey, Vec<Rc<Evaluation>>>,
    counts: Counts,
}

impl Model for EvalCache {
    ghost use Rattle.eval_cache.specs.Cache.{CacheValue};
    ghost use Rattle.eval_cache.specs.Held.{contents_of, traces_by_key, IsRightCache};

    ghost Value = { CacheValue };

    ghost view = { λ cache. record {
      contents = contents_of cache.parses.entries;
      traces = traces_by_key cache.evals.entries;
      sizes = record { parses = cache.parses.cap; keys = cache.evals.cap };
      counts = cache.counts;
      purpose = cache.purpose;
    } };

    ghost invariant = { λ cache. IsRightCache cache.parses.entries cache.evals.entries };
}

impl EvalCache {
    /// A cache that holds no parse and no evaluation yet. It never holds more than so many parses and the
    /// evaluations of so many keys. A size of 0 counts as 1. It is used for asking at first. It fails only if
    /// memory runs out.
    pub fn new(alloc: Global, parses: usize, evals: usize) -> Result<EvalCache, AllocError>
        ensures { IfOk result (λ cache. cache ≡ empty_cache parses evals) }
    {
        Ok(EvalCache {
            alloc,
            purpose: Purpose::Asking,
            parses: LruCache::sparse(alloc, capacity(parses))?,
            evals: LruCache::sparse(alloc, capacity(evals))?,
            counts: Counts {
                parses: 0,
                evals: 0,
            },
        })
    }

    /// Says what the cache of parses and evaluations is used for from now on. What is kept stays as it is.
    pub fn serve(&mut self, purpose: Purpose)
        ensures purpose { self.new ≡ record self.old { purpose = purpose } }
        ensures uses { UsesCache self.old self.new }
    {
        self.purpose = purpose;
    }

    /// How many parses the cache keeps.
    pub fn parses_kept(&self) -> usize
        ensures kept { result ≡ length self.now.contents }
        ensures within { result ≤ self.now.sizes.parses }
    {
        self.parses.len()
    }

    /// Under how many keys the cache keeps evaluations.
    pub fn keys_kept(&self) -> usize
        ensures kept { result ≡ length self.now.traces }
        ensures within { result ≤ self.now.sizes.keys }
    {
        self.evals.len()
    }

    /// How often a parse or an evaluation that the cache kept was used.
    pub fn counts(&self) -> Counts
        ensures { result ≡ self.now.counts }
    {
        self.counts
    }

    /// Looks for the evaluation of this key among those that the cache keeps, by the answers of the files.
    /// The newest is tried first, and each up to the first answer that differs. The result is what was found,
    /// and how many answers were checked: at least one if something was found. Nothing that is kept goes. If
    /// something was found, its key is now the one that was used last.
    ///
    /// If the files fail, their fault is returned as it is. It is also `Memory` if no more can share the
    /// evaluation.
    pub fn look<F: Files>(
        &mut self,
        key: &EvalKey,
        files: &mut F,
    ) -> Result<(Look, u64), FilesFault>
        ensures looks { LooksUnder F.view result files.old files.new key.now self.old self.new }
        ensures fails { FailsChecking F.fails_with result (F.view files.old) (F.view files.new) }
        ensures err { OnErr result (self.new ≡ self.old) }
        ensures kept { KeepsAllKept self.old self.new }
        ensures uses { UsesCache self.old self.new }
    {
        let (found, checked) = self.kept_evaluation(key, files)?;
        match found {
            Some(evaluation) => {
                let _there = self.evals.promote(key);
                self.counts.evals = self.counts.evals.saturating_add(1);
                let cost = evaluation.cost();
                Ok((Look::Hit(evaluation, cost), checked))
            }
            None => Ok((Look::Miss, checked)),
        }
    }

    /// Keeps in the cache an evaluation that is right for the key, as the newest one there. If there are more
    /// than four, the oldest one goes. If there are too many keys, the one that stands last is dropped. The
    /// key goes to the front, as the one that was used last. But if a walk fills the cache with it, it goes
    /// to the end: it is dropped next, unless it is used before.
    ///
    /// If there is no memory to keep it, it isn't kept, and others of the key may go. It isn't kept either if its
    /// trace has no answer, or more than a trace may have. Right for a key is what its makefile means in some files,
    /// with each question that this evaluation asks there and its answer.
    pub fn keep(&mut self, key: EvalKey, evaluation: Rc<Evaluation>)
        requires { IsRight (key_of key) evaluation.value }
        ensures keeps { Keeps (key_of key) evaluation.value.trace self.old self.new }
        ensures counts { self.new.counts ≡ self.old.counts }
        ensures uses { UsesCache self.old self.new }
    {
        let answers = evaluation.trace.questions().len();
        if answers == 0 || answers > MOST_ANSWERS {
            return;
        }
        let _all = self.evals.len(); // no key is there twice
        let older = self.evals.pop(&key);
        let kept = with_newest(self.alloc, older, evaluation);
        put_new(&mut self.evals, self.purpose, key, kept);
    }

    /// The parse that the cache keeps for this content, or else a new one, which is then kept if there is
    /// memory for that.
    fn kept_or_new(&mut self, content: &Content) -> Result<Parse, AllocError>
        ensures tree { IfOk result (λ found. tree_or_fault found ≡ parsed content.now) }
        ensures handed { OnOk result (HandsOut content.now self.old self.new) }
        ensures err { OnErr result (self.new ≡ self.old) }
    {
        let key = ContentKey {
            content: content.share()?,
        };
        match self.kept_parse(&key)? {
            Some(parse) => {
                let _there = self.parses.promote(&key);
                self.counts.parses = self.counts.parses.saturating_add(1);
                Ok(parse)
            }
            None => {
                let parse = parse_anew(self.alloc, content)?;
                self.keep_parse(key, &parse);
                Ok(parse)
            }
        }
    }

    /// The parse that the cache keeps for this content, if it keeps one.
    fn kept_parse(&self, key: &ContentKey) -> Result<Option<Parse>, AllocError>
        ensures held { IfOk result (λ found. is_some found ≡ holds_parse self.now key.now.content) }
        ensures tree { GivesParseOf result key.now.content }
    {
        match self.parses.peek(key) {
            Some(parse) => Ok(Some(share(parse)?)),
            None => Ok(None),
        }
    }

    /// Keeps the parse of a content in the cache, if there is memory for that. If a walk fills the cache with
    /// it, it stands last.
    fn keep_parse(&mut self, key: ContentKey, parse: &Parse)
        requires tree { tree_or_fault parse.now ≡ parsed key.content }
        requires anew { holds_parse self.old key.content ≡ false }
        ensures contents { PutsParse key.content self.old self.new }
        ensures counts { self.new.counts ≡ self.old.counts }
        ensures traces { self.new.traces ≡ self.old.traces }
        ensures sizes { self.new.sizes ≡ self.old.sizes }
        ensures purpose { self.new.purpose ≡ self.old.purpose }
    {
        let Ok(parse) = share(parse) else {
            return;
        };
        put_new(&mut self.parses, self.purpose, key, parse);
    }

    /// The first evaluation that the cache keeps under the key and whose trace agrees with the files, and how
    /// many answers were checked.
    fn kept_evaluation<F: Files>(
        &self,
        key: &EvalKey,
        files: &mut F,
    ) -> Result<(Option<Rc<Evaluation>>, u64), FilesFault>
        ensures checked { TellsAgreementAt result (F.view files.old).files self.now key.now }
        ensures found { FindsAgreed result (F.view files.old).files key.now }
        ensures asks { AsksChecks result (F.view files.old) (F.view files.new) self.now key.now }
        ensures bound { IfOk result (λ found. found.1 ≤ MOST_CHECKS) }
        ensures fails { FailsChecking F.fails_with result (F.view files.old) (F.view files.new) }
    {
        match self.evals.peek(key) {
            Some(kept) => first_agreeing(kept.as_slice(), files),
            None => Ok((None, 0)),
        }
    }
}

impl Parses for EvalCache {
    ghost use Rattle.eval_cache.specs.Parses.{AsksParses, AsksParses-none, AsksParses-on};

    ghost becomes = { AsksParses };

    ghost stays = { AsksParses-none };

    ghost goes_on = { AsksParses-on };

    /// The tree of a makefile with this content, or its fault: the parse that the cache keeps, or else a new
    /// one, which is then kept if there is memory for that. If there are too many, the one that stands last
    /// is dropped. The one that is handed out goes to the front. But if a walk fills the cache with a new
    /// one, it goes to the end: it is dropped next, unless it is used before. It fails only if memory for the
    /// tree runs out, or if no more can share it.
    fn parsed(&mut self, content: &Content) -> Result<Parse, AllocError>
        ensures tree { IfOk result (λ found. tree_or_fault found ≡ parsed content.now) }
        ensures left { AsksParses self.old self.new }
        ensures uses { UsesCache self.old self.new }
        ensures handed { OnOk result (HandsOut content.now self.old self.new) }
        ensures err { OnErr result (self.new ≡ self.old) }
    {
        self.kept_or_new(content)
    }
}

/// How many parses or keys the cache may hold, if this size is asked for: 0 counts as 1.
fn capacity(size: usize) -> NonZeroUsize
    ensures { non_zero_usize_get result ≡ size_for size }
{
    match NonZeroUsize::new(size) {
        Some(size) => size,
        None => NonZeroUsize::MIN,
    }
}

/// A new parse for the cache: the tree of a makefile with this content, or its fault.
fn parse_anew(alloc: Global, content: &Content) -> Result<Parse, AllocError>
    ensures { IfOk result (λ found. tree_or_fault found ≡ parsed content.now) }
{
    match parse(alloc, content.as_slice()) {
        Ok(makefile) => Ok(Ok(Rc::new(alloc, makefile)?)),
        Err(ParseError::Fault(fault)) => Ok(Err(fault)),
        Err(ParseError::Memory(refused)) => Err(refused.into()),
    }
}

/// A parse of the cache once more, with the same tree.
fn share(parse: &Parse) -> Result<Parse, AllocError>
    ensures { IfOk result (λ shared. tree_or_fault shared ≡ tree_or_fault parse.now) }
{
    match parse {
        Ok(makefile) => Ok(Ok(makefile.clone()?)),
        Err(fault) => Ok(Err(*fault)),
    }
}

/// The evaluations that the cache keeps under a key: this one before older ones, of which the newest stay. If
/// there is no memory for it, there are older ones alone.
fn with_newest(
    alloc: Global,
    older: Option<Vec<Rc<Evaluation>>>,
    evaluation: Rc<Evaluation>,
) -> Vec<Rc<Evaluation>>
    ensures { AreNewest evaluation.value (evaluations_in older) result.items }
{
    let mut kept = match older {
        Some(kept) => kept,
        None => Vec::new(alloc),
    };
    kept.truncate(MOST_EVALUATIONS - 1);
    let _refused = kept.insert(0, evaluation);
    kept
}
