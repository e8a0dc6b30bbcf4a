//! The lines of a fixed schedule: events, and what is to be answered and counted after each.
use gs_drawn_events::Ask;
use gs_drawn_schedules::{
    Effect, Effects, Judge, Kind, Moment, Stop, Subject, Totals, effect, on_both,
};
use gs_event::{Answer, Event};
use gs_model::Refusal;
use gs_version_models::{answer_words, is_same};
use std::alloc::{AllocError, Global};

/// What is to be answered.
#[derive(Drop)]
enum Wanted {
    /// This, in words.
    Words(String),
    /// A Reclaim frees what is no more in use then, and says whether waste is left.
    Left(bool),
}

/// What is to be counted.
#[derive(Clone, Copy, Drop)]
pub struct Bounds {
    /// At least so many nodes and records are in use, and at most so many.
    pub least: u64,
    pub most: u64,
    /// The triples of graphs.
    pub triples: u64,
}

impl Bounds {
    /// Exactly so many nodes and records, and so many triples.
    pub fn exactly(nodes: u64, triples: u64) -> Bounds {
        Bounds {
            least: nodes,
            most: nodes,
            triples,
        }
    }
}

/// One event, and what is to be answered and counted then.
#[derive(Drop)]
struct Line {
    event: Event,
    /// What a seat is asked, as a model has it.
    ask: Option<Ask>,
    name: &'static str,
    wanted: Wanted,
    bounds: Bounds,
}

/// The seat of an event, 0 where there is none.
fn seat_of(event: &Event) -> u16 {
    match event {
        Event::Seat(seat, _) => *seat,
        _ => 0,
    }
}

impl Line {
    /// The event is the one with this number.
    fn moment(&self, alloc: Global, number: usize) -> Moment {
        Moment {
            alloc,
            step: number,
            seat: seat_of(&self.event),
            ask: self.name,
        }
    }

    /// The event did what it is to do.
    fn check(&self, moment: Moment, effect: &Effect) -> Result<(), Stop> {
        self.check_answer(moment, effect)?;
        let nodes = effect.after.nodes;
        moment.no_less(Kind::FewNodes, nodes, self.bounds.least)?;
        moment.no_more(Kind::Growth, nodes, self.bounds.most)?;
        moment.same_numbers(Kind::Triples, effect.after.triples, self.bounds.triples)
    }

    /// The plain store answers alike and has as many triples, but it has nothing to free.
    fn check_plain(&self, moment: Moment, effects: &Effects) -> Result<(), Stop> {
        let Effects { judged, plain } = effects;
        moment.same_numbers(Kind::Triples, judged.after.triples, plain.after.triples)?;
        if matches!(self.event, Event::Reclaim(_)) {
            return effects.check_plain_reclaim(moment);
        }
        if is_same(&judged.answer, &plain.answer) {
            return Ok(());
        }
        let got = answer_words(moment.alloc, &judged.answer)?;
        let by_plain = answer_words(moment.alloc, &plain.answer)?;
        Err(moment.found(Kind::PlainAnswer, got, by_plain))
    }

    /// A judge says whether the event did what it is to do.
    fn judge(&self, judge: &mut Judge, effects: &Effects, totals: &mut Totals) -> Result<(), Stop> {
        match (&self.event, &self.ask) {
            (Event::Seat(seat, _), Some(ask)) => judge.take(*seat, ask, effects, totals),
            (Event::Reclaim(most), _) => judge.reclaim(*most, effects, totals),
            _ => Ok(()),
        }
    }

    /// The event did what it is to do on both stores.
    fn check_both(&self, moment: Moment, effects: &Effects) -> Result<(), Stop> {
        self.check(moment, &effects.judged)?;
        self.check_plain(moment, effects)
    }

    /// The event did what it is to do, and by a judge too.
    fn check_judged(
        &self,
        moment: Moment,
        judge: &mut Judge,
        effects: &Effects,
        totals: &mut Totals,
    ) -> Result<(), Stop> {
        self.check(moment, &effects.judged)?;
        self.judge(judge, effects, totals)
    }

    /// A store takes the event. Where it is refused for memory, that has changed nothing that is counted, and
    /// the store takes it once more.
    fn taken<S: Subject>(&self, moment: Moment, store: &mut S) -> Result<Effect, Stop> {
        let first = effect(store, &self.event);
        if !matches!(first.answer, Answer::Refused(Refusal::NoMemory)) {
            return Ok(first);
        }
        moment.same_numbers(Kind::Growth, first.after.nodes, first.before.nodes)?;
        moment.same_numbers(Kind::Triples, first.after.triples, first.before.triples)?;
        drop(first);
        Ok(effect(store, &self.event))
    }

    fn check_answer(&self, moment: Moment, effect: &Effect) -> Result<(), Stop> {
        match &self.wanted {
            Wanted::Words(words) => {
                let got = answer_words(moment.alloc, &effect.answer)?;
                moment.same_texts(Kind::Answer, got, words.as_str())
            }
            Wanted::Left(is_left) => {
                let (_, left) = effect.freed(moment)?;
                moment.same_numbers(Kind::Left, u64::from(left), u64::from(*is_left))
            }
        }
    }
}

/// The lines of a schedule.
#[derive(Drop)]
pub struct Lines {
    alloc: Global,
    list: Vec<Line>,
    /// Nothing is freed, so there may be any number of nodes and records more.
    is_kept: bool,
}

impl Lines {
    /// No line yet.
    pub fn new(alloc: Global) -> Lines {
        Lines {
            alloc,
            list: Vec::new(alloc),
            is_kept: false,
        }
    }

    /// The same, but nothing is ever freed.
    pub fn kept(alloc: Global) -> Lines {
        Lines {
            alloc,
            list: Vec::new(alloc),
            is_kept: true,
        }
    }

    /// An event, which is to be answered in these words.
    pub fn push(
        &mut self,
        name: &'static str,
        event: Event,
        words: &str,
        bounds: Bounds,
    ) -> Result<(), AllocError> {
        let wanted = String::from_str(self.alloc, words)?;
        self.push_line(Line {
            event,
            ask: None,
            name,
            wanted: Wanted::Words(wanted),
            bounds,
        })
    }

    /// The same of an event by which a seat is asked this. The words have ` / ` between their lines.
    pub fn push_asked(
        &mut self,
        name: &'static str,
        event: Event,
        ask: Ask,
        words: &str,
        bounds: Bounds,
    ) -> Result<(), AllocError> {
        let wanted = words.replace(self.alloc, " / ", "\n")?;
        self.push_line(Line {
            event,
            ask: Some(ask),
            name,
            wanted: Wanted::Words(wanted),
            bounds,
        })
    }

    /// At most so many nodes and records are freed. The words are the whole answer, or `more` or `done` alone.
    pub fn push_free(&mut self, most: u64, words: &str, bounds: Bounds) -> Result<(), AllocError> {
        if self.is_kept {
            return Ok(());
        }
        let wanted = match words {
            "more" => Wanted::Left(true),
            "done" => Wanted::Left(false),
            _ => Wanted::Words(String::from_str(self.alloc, words)?),
        };
        self.push_line(Line {
            event: Event::Reclaim(most),
            ask: None,
            name: "Reclaim",
            wanted,
            bounds,
        })
    }

    /// A row that can't be read: no answer and no count is right.
    pub fn push_unread(&mut self, row: &str) -> Result<(), AllocError> {
        let bounds = Bounds::exactly(u64::MAX, u64::MAX);
        self.push("unread row", Event::Reclaim(0), row, bounds)
    }

    /// All that no pin keeps is freed.
    pub fn push_reclaim(&mut self, is_left: bool, bounds: Bounds) -> Result<(), AllocError> {
        self.push_line(Line {
            event: Event::Reclaim(u64::MAX),
            ask: None,
            name: "Reclaim",
            wanted: Wanted::Left(is_left),
            bounds,
        })
    }

    /// Plays them on a new store.
    pub fn play<S: Subject>(&self, store: &mut S) -> Result<(), Stop> {
        for (number, line) in self.list.iter().enumerate() {
            let effect = effect(store, &line.event);
            line.check(line.moment(self.alloc, number), &effect)?;
        }
        Ok(())
    }

    /// The same, where memory may be refused.
    pub fn play_again<S: Subject>(&self, store: &mut S) -> Result<(), Stop> {
        for (number, line) in self.list.iter().enumerate() {
            let moment = line.moment(self.alloc, number);
            let effect = line.taken(moment, store)?;
            line.check(moment, &effect)?;
        }
        Ok(())
    }

    /// Plays them on a new store and a new plain store, which answers alike.
    pub fn play_beside<S: Subject, P: Subject>(
        &self,
        store: &mut S,
        plain: &mut P,
    ) -> Result<(), Stop> {
        for (number, line) in self.list.iter().enumerate() {
            let moment = line.moment(self.alloc, number);
            let effects = on_both(store, plain, &line.event);
            line.check_both(moment, &effects)?;
        }
        Ok(())
    }

    /// The same, and each step is judged by a model.
    pub fn play_judged<S: Subject, P: Subject>(
        &self,
        judge: &mut Judge,
        store: &mut S,
        plain: &mut P,
    ) -> Result<(), Stop> {
        let mut totals = Totals::new();
        for (number, line) in self.list.iter().enumerate() {
            judge.step = number;
            let effects = on_both(store, plain, &line.event);
            let moment = line.moment(self.alloc, number);
            line.check_judged(moment, judge, &effects, &mut totals)?;
        }
        Ok(())
    }

    fn push_line(&mut self, mut line: Line) -> Result<(), AllocError> {
        if self.is_kept {
            line.bounds.most = u64::MAX;
        }
        self.list.push(line).map_err(AllocError::from)
    }
}
