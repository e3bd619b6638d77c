//! The lines that are no failure of their own: they have no comma.
ghost use Rattle.std.specs.Prelude.{◌≡◌, true, IfOk};
ghost use Rattle.mn_topo.specs.Network.{Network};
ghost use Rattle.mn_script.specs.Words.{texts};
ghost use Rattle.mn_failures.specs.Language.{one_of, all_links, links_between, links_line, each_line, sessions_line, resolve_as, resolve_line, losses_line, counts_line, ttl_line, is_lone, lone_line};
ghost use Rattle.mn_failures.specs.Meaning.{each_fits, command_fits};

use crate::command::{Each, FailureCommand, Resolve};
use crate::part_lines::has_word;
use mn_script::{ScriptRule, choice, counted, is_word, number_in, word_at};

/// The greatest number that a link may have.
const LAST_LINK: u32 = 1023;

/// `each link`, `each ldp`, `each node`, `each bgp`.
#[tactic(auto, unfolding(crate::specs::Language::one_of))]
fn one_of(words: &[&[u8]], each: Each) -> Result<Each, ScriptRule>
    ensures value { result ≡ one_of (texts words.now) each }
    ensures same { IfOk result (λ found. found ≡ each) }
{
    counted(words, 2)?;
    Ok(each)
}

/// `each N links`.
#[tactic(auto, unfolding(crate::specs::Language::all_links))]
fn all_links(words: &[&[u8]]) -> Result<Each, ScriptRule>
    ensures value { result ≡ all_links (texts words.now) }
    ensures fits { IfOk result (λ each. each_fits each ≡ true) }
{
    let many = number_in(word_at(words, 1), 2, 3)?;
    Ok(Each::Links {
        many: many as u8,
        from: 0,
        to: LAST_LINK as u16,
    })
}

/// `each N links from A to B`.
#[tactic(auto, unfolding(crate::specs::Language::links_between))]
fn links_between(words: &[&[u8]]) -> Result<Each, ScriptRule>
    ensures value { result ≡ links_between (texts words.now) }
    ensures fits { IfOk result (λ each. each_fits each ≡ true) }
{
    has_word(words, 3, "from")?;
    has_word(words, 5, "to")?;
    counted(words, 7)?;
    let many = number_in(word_at(words, 1), 2, 3)?;
    let from = number_in(word_at(words, 4), 0, LAST_LINK)?;
    let to = number_in(word_at(words, 6), 0, LAST_LINK)?;
    Ok(Each::Links {
        many: many as u8,
        from: from as u16,
        to: to as u16,
    })
}

/// `each N links`, with or without the first link's numbers.
#[tactic(auto, unfolding(crate::specs::Language::links_line))]
fn links_line(words: &[&[u8]]) -> Result<Each, ScriptRule>
    ensures value { result ≡ links_line (texts words.now) }
    ensures fits { IfOk result (λ each. each_fits each ≡ true) }
{
    if words.len() == 3 {
        all_links(words)
    } else {
        links_between(words)
    }
}

/// `each ..`.
#[tactic(auto, unfolding(crate::specs::Language::each_line))]
fn each_line(words: &[&[u8]]) -> Result<Each, ScriptRule>
    ensures value { result ≡ each_line (texts words.now) }
    ensures fits { IfOk result (λ each. each_fits each ≡ true) }
{
    if words.len() == 1 {
        Err(ScriptRule::WrongCount)
    } else if is_word(words, 1, "link") {
        one_of(words, Each::Link)
    } else if is_word(words, 1, "ldp") {
        one_of(words, Each::Ldp)
    } else if is_word(words, 1, "node") {
        one_of(words, Each::Node)
    } else if is_word(words, 1, "bgp") {
        one_of(words, Each::Bgp)
    } else if is_word(words, 2, "links") {
        links_line(words)
    } else {
        Err(ScriptRule::UnknownWord)
    }
}

/// `sessions end`, `sessions stay`.
#[tactic(auto, unfolding(crate::specs::Language::sessions_line))]
fn sessions_line(words: &[&[u8]]) -> Result<FailureCommand, ScriptRule>
    ensures value { result ≡ sessions_line (texts words.now) }
    ensures fits { (network : Network) → IfOk result (λ command. command_fits network command ≡ true) }
{
    let end = choice(words, "end", "stay")?;
    counted(words, 2)?;
    Ok(FailureCommand::Sessions { end })
}

/// How next hops are resolved, by the second word.
#[tactic(auto, unfolding(crate::specs::Language::resolve_as))]
fn resolve_as(words: &[&[u8]]) -> Result<Resolve, ScriptRule>
    ensures { result ≡ resolve_as (texts words.now) }
{
    if words.len() == 1 {
        Err(ScriptRule::WrongCount)
    } else if is_word(words, 1, "topology") {
        Ok(Resolve::AsTopology)
    } else if is_word(words, 1, "no") {
        Ok(Resolve::Never)
    } else if is_word(words, 1, "label") {
        Ok(Resolve::ByLabel)
    } else {
        Err(ScriptRule::UnknownWord)
    }
}

/// `resolve topology`, `resolve no`, `resolve label`.
#[tactic(auto, unfolding(crate::specs::Language::resolve_line))]
fn resolve_line(words: &[&[u8]]) -> Result<FailureCommand, ScriptRule>
    ensures value { result ≡ resolve_line (texts words.now) }
    ensures fits { (network : Network) → IfOk result (λ command. command_fits network command ≡ true) }
{
    let resolve = resolve_as(words)?;
    counted(words, 2)?;
    Ok(FailureCommand::Resolve(resolve))
}

/// `losses`.
#[tactic(auto, unfolding(crate::specs::Language::losses_line))]
fn losses_line(words: &[&[u8]]) -> Result<FailureCommand, ScriptRule>
    ensures value { result ≡ losses_line (texts words.now) }
    ensures fits { (network : Network) → IfOk result (λ command. command_fits network command ≡ true) }
{
    counted(words, 1)?;
    Ok(FailureCommand::Losses)
}

/// `counts`.
#[tactic(auto, unfolding(crate::specs::Language::counts_line))]
fn counts_line(words: &[&[u8]]) -> Result<FailureCommand, ScriptRule>
    ensures value { result ≡ counts_line (texts words.now) }
    ensures fits { (network : Network) → IfOk result (λ command. command_fits network command ≡ true) }
{
    counted(words, 1)?;
    Ok(FailureCommand::Counts)
}

/// `ttl N`.
#[tactic(auto, unfolding(crate::specs::Language::ttl_line))]
fn ttl_line(words: &[&[u8]]) -> Result<FailureCommand, ScriptRule>
    ensures value { result ≡ ttl_line (texts words.now) }
    ensures fits { (network : Network) → IfOk result (λ command. command_fits network command ≡ true) }
{
    counted(words, 2)?;
    let ttl = number_in(word_at(words, 1), 2, 255)?;
    Ok(FailureCommand::Ttl(ttl as u8))
}

/// Whether the first word is that of a line that is no failure of its own.
pub(crate) fn is_lone(words: &[&[u8]]) -> bool
    ensures { result ≡ is_lone (texts words.now) }
{
    is_word(words, 0, "each")
        || is_word(words, 0, "sessions")
        || is_word(words, 0, "resolve")
        || is_word(words, 0, "losses")
        || is_word(words, 0, "counts")
        || is_word(words, 0, "ttl")
}

/// Such a line, by its first word.
#[tactic(auto, unfolding(crate::specs::Language::lone_line))]
pub(crate) fn lone_line(words: &[&[u8]]) -> Result<FailureCommand, ScriptRule>
    ensures value { result ≡ lone_line (texts words.now) }
    ensures fits { (network : Network) → IfOk result (λ command. command_fits network command ≡ true) }
{
    if is_word(words, 0, "each") {
        let each = each_line(words)?;
        Ok(FailureCommand::Each(each))
    } else if is_word(words, 0, "sessions") {
        sessions_line(words)
    } else if is_word(words, 0, "resolve") {
        resolve_line(words)
    } else if is_word(words, 0, "losses") {
        losses_line(words)
    } else if is_word(words, 0, "counts") {
        counts_line(words)
    } else {
        ttl_line(words)
    }
}
