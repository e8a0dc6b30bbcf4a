//! The graphs of the model, as they are and as they were.
use crate::names::Names;
use crate::sections::Section;
use crate::sets::Set;
use gs_drawn_events::Place;
use std::alloc::{AllocError, Global};

/// A graph, none where it was taken away, and the commit that made it so: the last write on it that took effect.
#[derive(Clone, Copy, Drop)]
pub struct Graph {
    place: Place,
    pub triples: Option<Set>,
    pub birth: u64,
}

impl Graph {
    /// A graph before its first commit, in a store that begins after this one. The default graph is always there.
    fn at_first(place: Place, start: u64) -> Graph {
        Graph {
            place,
            triples: match place {
                Place::Default => Some(Set::none()),
                _ => None,
            },
            birth: start,
        }
    }

    /// Whether a store keeps a record of it: none of a graph that was taken away, nor of an empty default
    /// graph.
    pub fn has_record(&self) -> bool {
        match self.triples {
            None => false,
            Some(triples) => self.place != Place::Default || triples.count() > 0,
        }
    }
}

/// What a graph was until a commit.
#[derive(Clone, Copy, Drop)]
struct Past {
    graph: Graph,
    death: u64,
}

/// All graphs that there were.
#[derive(Drop)]
pub struct Graphs {
    alloc: Global,
    /// The commit number that the store begins with.
    start: u64,
    /// The commit number of the last Delete of a name, and that of the start where there was none.
    removed: u64,
    list: Vec<Graph>,
    past: Vec<Past>,
    names: Names,
}

impl Graphs {
    /// None but the default graph, in a store that begins after this commit. Names stand in order with their
    /// brackets, or wrongly without the last.
    pub fn new(alloc: Global, start: u64, are_names_bare: bool) -> Graphs {
        Graphs {
            alloc,
            start,
            removed: start,
            list: Vec::new(alloc),
            past: Vec::new(alloc),
            names: Names::new(alloc, are_names_bare),
        }
    }

    /// A graph as it is.
    pub fn get(&self, place: Place) -> Graph {
        for graph in &self.list {
            if graph.place == place {
                return *graph;
            }
        }
        Graph::at_first(place, self.start)
    }

    /// The commit number of the last write on a graph that took effect. A name that is missing has that of the
    /// last Delete of any name, and what was never written that of the start.
    pub fn last_write(&self, place: Place) -> u64 {
        let graph = self.get(place);
        match graph.triples {
            Some(_) => graph.birth,
            None => self.removed,
        }
    }

    /// The triples of a graph, if there is such a graph.
    pub fn triples(&self, place: Place) -> Option<Set> {
        self.get(place).triples
    }

    /// The triples that a graph had after this commit, if there was such a graph.
    pub fn triples_at(&self, place: Place, commit: u64) -> Option<Set> {
        let newest = self.get(place);
        if newest.birth <= commit {
            return newest.triples;
        }
        for past in &self.past {
            let graph = past.graph;
            if graph.place == place && graph.birth <= commit && commit < past.death {
                return graph.triples;
            }
        }
        Graph::at_first(place, self.start).triples
    }

    /// Whether all graphs are as they were after this commit.
    pub fn are_as_at(&self, commit: u64) -> bool {
        for graph in &self.list {
            if self.triples_at(graph.place, commit) != graph.triples {
                return false;
            }
        }
        true
    }

    /// All graphs as they were after this commit: the default graph, and those with names in the order of these.
    pub fn sections_at(&self, commit: u64) -> Result<Vec<Section>, AllocError> {
        let mut sections = Vec::new(self.alloc);
        for place in self.names.in_order(self.alloc)? {
            if let Some(triples) = self.triples_at(place, commit) {
                sections.push(Section { place, triples })?;
            }
        }
        Ok(sections)
    }

    /// Gives a graph these triples, or takes it away, by this commit.
    pub fn set(
        &mut self,
        place: Place,
        triples: Option<Set>,
        birth: u64,
    ) -> Result<(), AllocError> {
        if triples.is_none() {
            self.removed = birth;
        }
        let new = Graph {
            place,
            triples,
            birth,
        };
        for graph in &mut self.list {
            if graph.place == place {
                let graph_before = *graph;
                *graph = new;
                return self.keep(graph_before, birth);
            }
        }
        self.names.add(self.alloc, place)?;
        self.list.push(new).map_err(AllocError::from)
    }

    /// A graph was so until this commit.
    fn keep(&mut self, graph: Graph, death: u64) -> Result<(), AllocError> {
        self.past
            .push(Past { graph, death })
            .map_err(AllocError::from)
    }

    /// How many triples all graphs have.
    pub fn count(&self) -> u64 {
        let mut count = 0u64;
        for graph in &self.list {
            if let Some(triples) = graph.triples {
                count = count.saturating_add(triples.count());
            }
        }
        count
    }

    /// How many records a store keeps of them as they are.
    pub fn records(&self) -> u64 {
        let mut count = 0u64;
        for graph in &self.list {
            count = count.saturating_add(u64::from(graph.has_record()));
        }
        count
    }

    /// How many names there are.
    pub fn names(&self) -> u64 {
        let mut count = 0u64;
        for graph in &self.list {
            let is_named = graph.place != Place::Default && graph.triples.is_some();
            count = count.saturating_add(u64::from(is_named));
        }
        count
    }

    /// The names that the store made up, and whose graphs are there.
    pub fn made(&self, alloc: Global) -> Result<Vec<Place>, AllocError> {
        let mut places = Vec::new(alloc);
        for graph in &self.list {
            if let Place::Made(_, _) = graph.place
                && graph.triples.is_some()
            {
                places.push(graph.place)?;
            }
        }
        Ok(places)
    }
}
