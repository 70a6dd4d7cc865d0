//! Reading a command line, or a line of a batch.
ghost use Rattle.std.specs.Prelude.{◌≡◌, IfOk, IfSome, map, option_map, true};
ghost use Rattle.design_base.specs.Limits.{in_bounds, within};
ghost use Rattle.design_lines.specs.Reading.{Reads, ◌then◌, gives, one_of};
ghost use Rattle.design_lines.specs.Words.{texts};
ghost use Rattle.design_lines.specs.CommandLines.{IsInBounds, arguments, batch_line, is_range, keywords, line, on, parse, parse_in_batch, table, tables, verbs, workers, workload};

use crate::command::{Command, Reason, Request, Verb};
use crate::keywords::{COMMANDS, CommandRow, Keyword};
use crate::words::Words;
use design_base::{
    COVER_MAX, GDD_K_MAX, POINTS_MAX, TD_K_MAX, TD_N_MAX, TableAsk, WORKERS_MAX, WORKLOAD_MAX,
};

// Whether both ends of a range lie within the limits, the first not above the second.
fn is_range_within(low: u16, high: u16, ends: (u64, u64)) -> bool
    ensures { result ≡ is_range low high ends.0 ends.1 }
{
    u64::from(low) <= ends.0 && ends.0 <= ends.1 && ends.1 <= u64::from(high)
}

// Whether there may be so many workers.
fn is_crew(workers: u64) -> bool
    ensures { result ≡ within 1 WORKERS_MAX workers }
{
    1 <= workers && workers <= u64::from(WORKERS_MAX)
}

// The tables, each where its ranges and the number of workers keep the limits.

#[tactic(auto, unfolding(crate::specs::CommandLines::table))]
fn td(k: (u64, u64), n: (u64, u64), workers: u64) -> Option<Command>
    ensures { result ≡ table (TableAsk.Td k.0 k.1 n.0 n.1) workers }
{
    if !is_range_within(2, TD_K_MAX, k) || !is_range_within(1, TD_N_MAX, n) || !is_crew(workers) {
        return None;
    }
    let ask = TableAsk::Td {
        k1: k.0 as u16,
        k2: k.1 as u16,
        n1: n.0 as u16,
        n2: n.1 as u16,
    };
    Some(Command::Table {
        ask,
        workers: workers as u8,
    })
}

#[tactic(auto, unfolding(crate::specs::CommandLines::table))]
fn bibd(k: (u64, u64), v: (u64, u64), l: u64, workers: u64) -> Option<Command>
    ensures { result ≡ table (TableAsk.Bibd k.0 k.1 v.0 v.1 l) workers }
{
    if !is_range_within(2, POINTS_MAX, k)
        || !is_range_within(2, POINTS_MAX, v)
        || l < 1
        || l > u64::from(COVER_MAX)
        || !is_crew(workers)
    {
        return None;
    }
    let ask = TableAsk::Bibd {
        k1: k.0 as u16,
        k2: k.1 as u16,
        v1: v.0 as u16,
        v2: v.1 as u16,
        l: l as u16,
    };
    Some(Command::Table {
        ask,
        workers: workers as u8,
    })
}

#[tactic(auto, unfolding(crate::specs::CommandLines::table))]
fn gdd(k: u64, g: (u64, u64), u: (u64, u64), workers: u64) -> Option<Command>
    ensures { result ≡ table (TableAsk.Gdd k g.0 g.1 u.0 u.1) workers }
{
    if k < 2
        || k > u64::from(GDD_K_MAX)
        || !is_range_within(1, POINTS_MAX / 2, g)
        || !is_range_within(2, POINTS_MAX, u)
        || !is_crew(workers)
    {
        return None;
    }
    let ask = TableAsk::Gdd {
        k: k as u16,
        g1: g.0 as u16,
        g2: g.1 as u16,
        u1: u.0 as u16,
        u2: u.1 as u16,
    };
    Some(Command::Table {
        ask,
        workers: workers as u8,
    })
}

// A workload of so many draws, where there are not too many.
#[tactic(auto, unfolding(crate::specs::CommandLines::workload))]
fn draws(n: u64) -> Option<Command>
    ensures { result ≡ workload n }
{
    if n < 1 || n > u64::from(WORKLOAD_MAX) {
        return None;
    }
    Some(Command::Workload { n: n as u32 })
}

impl<'a> Words<'a> {
    // How many workers, at the end of the line of a table.
    #[tactic(auto, unfolding(crate::specs::CommandLines::workers, crate::specs::Reading::at_end, crate::specs::Reading::one_of_or))]
    fn workers(&mut self) -> Result<u64, Reason>
        ensures { Reads workers self.old self.new result }
    {
        if self.takes("workers") {
            let workers = self.number()?;
            return Ok(workers);
        }
        self.finish()?;
        Ok(1)
    }

    // The ranges of a table, and how many workers.
    #[tactic(auto, unfolding(crate::specs::CommandLines::tables, crate::specs::Reading::one_of_or))]
    fn table(&mut self) -> Result<Option<Command>, Reason>
        ensures { Reads (one_of tables) self.old self.new result }
    {
        if self.takes("td") {
            let k = self.pair()?;
            let n = self.pair()?;
            let workers = self.workers()?;
            return Ok(td(k, n, workers));
        }
        if self.takes("bibd") {
            let k = self.pair()?;
            let v = self.pair()?;
            let l = self.number()?;
            let workers = self.workers()?;
            return Ok(bibd(k, v, l, workers));
        }
        if self.takes("gdd") {
            let k = self.number()?;
            let g = self.pair()?;
            let u = self.pair()?;
            let workers = self.workers()?;
            return Ok(gdd(k, g, u, workers));
        }
        Err(self.no_fixed_word())
    }

    // The question of a verb.
    fn on(&mut self, verb: Verb) -> Result<Option<Request>, Reason>
        ensures { Reads (on verb) self.old self.new result }
    {
        let asked = self.question()?;
        Ok(asked.map(|asked| Request {
            verb,
            query: asked.query,
            shape: asked.shape,
        }))
    }

    // The command of a verb on a question.
    fn request(&mut self, verb: Verb) -> Result<Option<Command>, Reason>
        ensures { Reads (on verb then λ request. gives (option_map Command.On request)) self.old self.new result }
    {
        let request = self.on(verb)?;
        Ok(request.map(|request| Command::On(request)))
    }

    // A question whose blocks are to be checked.
    fn check(&mut self) -> Result<Option<Command>, Reason>
        ensures { Reads (arguments Keyword.Check) self.old self.new result }
    {
        let asked = self.question()?;
        Ok(asked.map(|asked| Command::Check(asked)))
    }

    // The keyword of a command in one of these rows.
    #[tactic(auto, unfolding(crate::specs::CommandLines::keywords, crate::specs::Reading::one_of_or))]
    fn keyword(&mut self, rows: &[CommandRow]) -> Result<Keyword, Reason>
        ensures { Reads (one_of (keywords (map (λ row. (row.0, row.1.now)) rows.now))) self.old self.new result }
    {
        let Some((row, rest)) = rows.split_first() else {
            return Err(self.no_fixed_word());
        };
        if self.takes(row.1) {
            return Ok(row.0);
        }
        self.keyword(rest)
    }

    // The keyword of a line that may stand in a batch, as its verb.
    #[tactic(auto, unfolding(crate::specs::CommandLines::verbs, crate::specs::Reading::one_of_or))]
    fn verb(&mut self, rows: &[CommandRow]) -> Result<Verb, Reason>
        ensures { Reads (one_of (verbs (map (λ row. (row.0, row.1.now)) rows.now))) self.old self.new result }
    {
        let Some((row, rest)) = rows.split_first() else {
            return Err(self.no_fixed_word());
        };
        match row.0.verb() {
            Some(verb) if self.takes(row.1) => Ok(verb),
            _ => self.verb(rest),
        }
    }

    // What stands behind the keyword of a command.
    fn arguments(&mut self, keyword: Keyword) -> Result<Option<Command>, Reason>
        ensures { Reads (arguments keyword) self.old self.new result }
    {
        match keyword {
            Keyword::Ask => self.request(Verb::Ask),
            Keyword::Build => self.request(Verb::Build),
            Keyword::Explain => self.request(Verb::Explain),
            Keyword::Closure => self.request(Verb::Closure),
            Keyword::Check => self.check(),
            Keyword::Replay => Ok(Some(Command::Replay)),
            Keyword::Batch => Ok(Some(Command::Batch)),
            Keyword::Workload => Ok(draws(self.number()?)),
            Keyword::Table => self.table(),
        }
    }

    // A line.
    fn line(&mut self) -> Result<Option<Command>, Reason>
        ensures { Reads line self.old self.new result }
    {
        let keyword = self.keyword(COMMANDS)?;
        self.arguments(keyword)
    }

    // A line that may stand in a batch.
    fn batch_line(&mut self) -> Result<Option<Request>, Reason>
        ensures { Reads batch_line self.old self.new result }
    {
        let verb = self.verb(COMMANDS)?;
        self.on(verb)
    }
}

// The command of the words of a command line.
#[tactic(auto, unfolding(crate::specs::CommandLines::parse, crate::specs::Reading::at_end))]
fn command_of_words(words: &[String]) -> Result<Command, Reason>
    ensures { result ≡ parse (texts words.now) }
{
    let mut words = Words::of_texts(words);
    let command = words.line()?;
    words.finish()?;
    command.ok_or(Reason::OutOfBounds)
}

/// The command that the words of a command line are. Words are read from the left, and the first bad one decides; a line
/// of good words is refused as out of bounds where its numbers break the limits.
#[tactic(auto, using(crate::proofs::InBounds::parse_in_bounds))]
pub fn read_words(words: &[String]) -> Result<Command, Reason>
    ensures command { result ≡ parse (texts words.now) }
    ensures bounds { IfOk result IsInBounds }
{
    command_of_words(words)
}

// The request of the words of a line of a batch, where there are some.
#[tactic(auto, unfolding(crate::specs::CommandLines::parse_in_batch, crate::specs::Reading::at_end))]
fn request_of_line(line: &[u8]) -> Result<Option<Request>, Reason>
    ensures { result ≡ parse_in_batch line.now }
{
    let mut words = Words::of_line(line);
    if words.is_empty() {
        return Ok(None);
    }
    let request = words.batch_line()?;
    words.finish()?;
    let request = request.ok_or(Reason::OutOfBounds)?;
    Ok(Some(request))
}

/// The verb and the question that a line of a batch has; `ask`, `build`, `explain` and `closure` alone may stand in one. Its words are its
/// longest runs of bytes other than space and tab. None where it has no word.
#[tactic(auto, using(crate::proofs::InBounds::parse_in_batch_in_bounds))]
pub fn read_line(line: &[u8]) -> Result<Option<Request>, Reason>
    ensures request { result ≡ parse_in_batch line.now }
    ensures bounds { IfOk result (λ request. IfSome request (λ r. in_bounds r.query ≡ true)) }
{
    request_of_line(line)
}
