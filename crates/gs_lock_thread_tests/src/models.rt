//! A plain model of a store, apart from it: for each named graph its lines, and the number of the last
//! write on it. It knows the requests of the threads alone; the status of another is 0, which none has.
use gs_chronicle::{KeptOp, KeptOps, Patch, Request, Upload};
use gs_core::{Part, Pattern, Refusal, UploadKind};
use gs_event::Scope;
use gs_ntwrite::line;
use gs_term::{Target, Triple};
use std::alloc::Global;

/// A graph: its name, its lines in their order, each once, and the number of the last write on it.
#[derive(Drop)]
struct Graph {
    name: Vec<u8>,
    lines: Vec<Vec<u8>>,
    written: u64,
}

/// All named graphs, how many writes took effect, and the number of the last deletion.
#[derive(Drop)]
pub struct Model {
    graphs: Vec<Graph>,
    commit: u64,
    removed: u64,
}

/// The name of a target, none for the default graph.
fn name_of(target: &Target) -> &[u8] {
    match target {
        Target::Default => b"",
        Target::Named(name) => name.as_bytes(),
    }
}

/// Where a line goes among lines. `None` where it stands there.
fn place_among(lines: &[Vec<u8>], more: &[u8]) -> Option<usize> {
    let mut place = 0usize;
    for one in lines {
        if one.as_slice() == more {
            return None;
        }
        if one.as_slice() < more {
            place = place.saturating_add(1);
        }
    }
    Some(place)
}

/// Adds the line of a triple.
fn add(alloc: Global, lines: &mut Vec<Vec<u8>>, triple: &Triple) -> Result<(), Refusal> {
    let mut bytes = Vec::new(alloc);
    line(triple, &mut bytes)?;
    if let Some(place) = place_among(lines.as_slice(), bytes.as_slice()) {
        lines.insert(place.min(lines.len()), bytes)?;
    }
    Ok(())
}

/// Adds the line of each triple.
fn add_all(alloc: Global, lines: &mut Vec<Vec<u8>>, triples: &[Triple]) -> Result<(), Refusal> {
    for triple in triples {
        add(alloc, lines, triple)?;
    }
    Ok(())
}

/// The lines of all triples of an upload.
fn staged(alloc: Global, upload: &Upload) -> Result<Vec<Vec<u8>>, Refusal> {
    let triples = upload.to_vec(alloc)?;
    let mut lines = Vec::new(alloc);
    add_all(alloc, &mut lines, triples.as_slice())?;
    Ok(lines)
}

/// The predicate of patterns that are one, whose subject and object are variables.
fn predicate_of(patterns: &[Pattern]) -> &[u8] {
    match patterns {
        [
            Pattern {
                subject: Part::Variable(_),
                predicate: Part::Term(predicate),
                object: Part::Variable(_),
            },
        ] => predicate.as_bytes(),
        _ => b"",
    }
}

/// The predicate of a line.
fn predicate_in(line: &[u8]) -> &[u8] {
    let mut words = line.split(|byte| *byte == b' ');
    let _ = words.next();
    words.next().unwrap_or_default()
}

/// The lines that have not this predicate.
fn without(
    alloc: Global,
    lines: &mut Vec<Vec<u8>>,
    predicate: &[u8],
) -> Result<Vec<Vec<u8>>, Refusal> {
    let mut kept = Vec::new(alloc);
    for one in lines.drain(..) {
        if predicate_in(one.as_slice()) != predicate {
            kept.push(one)?;
        }
    }
    Ok(kept)
}

/// Adds the lines of a graph to a text, with its name before the dot of each.
fn add_quads(text: &mut Vec<u8>, graph: &Graph) -> Result<(), Refusal> {
    for one in &graph.lines {
        let front = one.as_slice().strip_suffix(b".\n".as_slice());
        text.extend_from_slice(front.unwrap_or_default())?;
        text.push(b'<')?;
        text.extend_from_slice(graph.name.as_slice())?;
        text.extend_from_slice(b"> .\n".as_slice())?;
    }
    Ok(())
}

impl Graph {
    /// Takes an operation.
    fn take(&mut self, alloc: Global, op: &KeptOp) -> Result<(), Refusal> {
        match op {
            KeptOp::Insert(small) => {
                let triples = small.to_vec(alloc)?;
                add_all(alloc, &mut self.lines, triples.as_slice())
            }
            KeptOp::DeleteWhere(patterns) => {
                let predicate = predicate_of(patterns.as_slice());
                self.lines = without(alloc, &mut self.lines, predicate)?;
                Ok(())
            }
            KeptOp::DeleteData(_) => Ok(()),
        }
    }
}

impl Model {
    /// No named graphs.
    pub fn new(alloc: Global) -> Model {
        Model {
            graphs: Vec::new(alloc),
            commit: 0,
            removed: 0,
        }
    }

    fn place(&self, name: &[u8]) -> Option<usize> {
        for (place, graph) in self.graphs.iter().enumerate() {
            if graph.name.as_slice() == name {
                return Some(place);
            }
        }
        None
    }

    /// The number of the last write on the graph at a place, and where there is none of the last deletion.
    fn written(&self, place: Option<usize>) -> u64 {
        match place {
            Some(place) => match self.graphs.get(place) {
                Some(graph) => graph.written,
                None => self.removed,
            },
            None => self.removed,
        }
    }

    /// Whether the graph at a place, or a missing one, was written after the commit of this number.
    fn is_late(&self, place: Option<usize>, since: Option<u64>) -> bool {
        match since {
            Some(number) => self.written(place) > number,
            None => false,
        }
    }

    /// The number of one write more.
    fn next(&mut self) -> u64 {
        self.commit = self.commit.saturating_add(1);
        self.commit
    }

    fn put(&mut self, alloc: Global, name: &[u8], lines: Vec<Vec<u8>>) -> Result<u16, Refusal> {
        let written = self.next();
        if let Some(place) = self.place(name) {
            if let Some(graph) = self.graphs.get_mut(place) {
                graph.lines = lines;
                graph.written = written;
            }
            return Ok(204);
        }
        let name = Vec::from_slice(alloc, name)?;
        self.graphs.push(Graph {
            name,
            lines,
            written,
        })?;
        Ok(201)
    }

    /// A PUT of what was staged, on its condition.
    fn put_staged(&mut self, alloc: Global, name: &[u8], upload: &Upload) -> Result<u16, Refusal> {
        if self.is_late(self.place(name), upload.since()) {
            return Ok(412);
        }
        self.put(alloc, name, staged(alloc, upload)?)
    }

    /// Takes a patch. The status of one that is kept as it came is 0: memory is never refused here.
    fn patch(&mut self, alloc: Global, patch: &Patch) -> Result<u16, Refusal> {
        let KeptOps::Kept(ops) = patch.ops() else {
            return Ok(0);
        };
        let Some(place) = self.place(name_of(patch.target())) else {
            return Ok(404);
        };
        if self.is_late(Some(place), patch.since()) {
            return Ok(412);
        }
        let written = self.next();
        if let Some(graph) = self.graphs.get_mut(place) {
            for op in ops {
                graph.take(alloc, op)?;
            }
            graph.written = written;
        }
        Ok(204)
    }

    fn delete(&mut self, name: &[u8], since: Option<u64>) -> u16 {
        match self.place(name) {
            Some(place) if place < self.graphs.len() => {
                if self.is_late(Some(place), since) {
                    return 412;
                }
                let _ = self.graphs.remove(place);
                self.removed = self.next();
                204
            }
            _ => 404,
        }
    }

    /// The status of a question about a scope, and of a read of it. All graphs are always there.
    fn status_of(&self, scope: &Scope) -> u16 {
        match scope {
            Scope::All => 200,
            Scope::One(target) => match self.place(name_of(target)) {
                Some(_) => 200,
                None => 404,
            },
        }
    }

    /// Takes a request, and gives the status that it must have.
    pub fn take(&mut self, alloc: Global, request: &Request) -> Result<u16, Refusal> {
        match request {
            Request::Upload(upload) => match upload.kind() {
                UploadKind::Put(target) => self.put_staged(alloc, name_of(target), upload),
                UploadKind::Post(_) | UploadKind::New => Ok(0),
            },
            Request::Patch(patch) => self.patch(alloc, patch),
            Request::Delete(target, since) => Ok(self.delete(name_of(target), *since)),
            Request::Head(scope) | Request::Pin(scope) => Ok(self.status_of(scope)),
        }
    }

    /// The lines of the graphs of these names, in this order, with the name of its graph in each; none
    /// for one that is not there.
    pub fn quads(&self, alloc: Global, names: &[&str]) -> Result<Vec<u8>, Refusal> {
        let mut text = Vec::new(alloc);
        for name in names {
            if let Some(place) = self.place(name.as_bytes()) {
                if let Some(graph) = self.graphs.get(place) {
                    add_quads(&mut text, graph)?;
                }
            }
        }
        Ok(text)
    }

    /// The text of a graph, empty where it is not there.
    pub fn text(&self, alloc: Global, name: &str) -> Result<Vec<u8>, Refusal> {
        let mut text = Vec::new(alloc);
        for graph in &self.graphs {
            if graph.name.as_slice() == name.as_bytes() {
                for one in &graph.lines {
                    text.extend_from_slice(one.as_slice())?;
                }
            }
        }
        Ok(text)
    }
}
