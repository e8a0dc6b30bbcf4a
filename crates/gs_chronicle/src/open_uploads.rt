//! Open uploads.
ghost use Rattle.std.specs.Prelude.{◌≡◌, ◌+◌, ◌≤◌, ◌++◌, length, min, vec_len, vec_capacity};
ghost use Rattle.gs_packed_triples.specs.Triples.{packed_triples};
ghost use Rattle.gs_chronicle.specs.KeptLists.{all_triples};
ghost use Rattle.gs_chronicle.specs.Sizes.{triples_size};

use crate::kept_lists::{KeptList, keep_gathered};
use crate::uploads::Upload;
use gs_event::UploadKind;
use gs_packed_triples::PackedTriples;
use gs_small_triples::SmallTriples;
use gs_triple_lists::TripleList;
use std::alloc::Global;
use std::mem;

/// Lists of fewer triples are gathered, but the first that has any: a small form takes some 230 bytes
/// beside its texts.
const FEW: usize = 32;

/// Where an upload keeps so many lists apart, all others are gathered too: each is some blocks of
/// memory, and all are freed at once where an upload is given up.
const MOST: usize = 16_384;

/// What was staged since an upload was opened, in the order in which it came.
#[derive(Debug, Drop)]
pub struct OpenUpload {
    kind: UploadKind,
    request: u64,
    since: Option<u64>,
    lists: Vec<KeptList>,
    /// What came after these and is kept by no small form.
    gathered: PackedTriples,
    /// The list that is staged next, where it is not gathered, or one that the store refused.
    next: Option<SmallTriples>,
    /// As how many triples that list counts, and as how many all before it.
    next_count: usize,
    count: usize,
    ghost counted: { count ≡ triples_size (all_triples lists.items ++ packed_triples gathered) },
    ghost place: { vec_len lists + min (length (packed_triples gathered)) 1 ≤ vec_capacity lists },
}

impl OpenUpload {
    ghost use Rattle.std.specs.Prelude.{◌≡◌, ◌-◌, ◌^◌, [], ◌++◌, ◌+◌, min, if◌then◌else◌, true, length, vec_len, None, IfSome};
    ghost use Rattle.gs_model.specs.Graphs.{empty_graph, with_triples};
    ghost use Rattle.gs_small_triples.specs.Small.{small_triples};
    ghost use Rattle.gs_packed_triples.specs.Triples.{HasRoomFor};
    ghost use Rattle.gs_chronicle.specs.Sizes.{triples_size};
    ghost use Rattle.gs_chronicle.specs.Uploads.{upload_kind, upload_request, upload_since, staged_triples};
    ghost use Rattle.gs_chronicle.specs.OpenUploads.{open_upload_kind, open_upload_request, open_upload_since, triples_so_far, graph_so_far, count_so_far, lists_kept_apart, next_form, keeps_form, HasPlace, HasRoomToStage};

    /// An upload of this kind, this request number and this condition, to which nothing was staged yet.
    /// Takes no memory.
    pub fn new(alloc: Global, kind: UploadKind, request: u64, since: Option<u64>) -> OpenUpload
        ensures kind { open_upload_kind result ≡ kind }
        ensures request { open_upload_request result ≡ request }
        ensures since { open_upload_since result ≡ since }
        ensures triples { triples_so_far result ≡ [] }
        ensures graph { graph_so_far result ≡ empty_graph }
    {
        OpenUpload {
            kind,
            request,
            since,
            lists: Vec::new(alloc),
            gathered: PackedTriples::new(alloc),
            next: None,
            next_count: 0,
            count: 0,
        }
    }

    /// Makes a place for one list more, and for what is gathered. False where memory is refused.
    fn make_place(&mut self) -> bool
        ensures kind { self.new.kind ≡ self.old.kind }
        ensures request { self.new.request ≡ self.old.request }
        ensures since { self.new.since ≡ self.old.since }
        ensures lists { self.new.lists.items ≡ self.old.lists.items }
        ensures gathered { self.new.gathered ≡ self.old.gathered }
        ensures place { result ≡ true → HasPlace self.new }
    {
        let places = self.gathered.len().min(1) + 1;
        // Most uploads are one list.
        let made = if self.lists.is_empty() {
            self.lists.reserve_exact(places)
        } else {
            self.lists.reserve(places)
        };
        made.is_ok()
    }

    /// The small form by which a list is kept that comes next. `None` where it is gathered.
    fn kept_form(&self, list: &TripleList, small: Option<SmallTriples>) -> Option<SmallTriples>
        requires { IfSome small (λ s. small_triples s ≡ list.now.items) }
        ensures value { result ≡
            if keeps_form self.now.count (vec_len self.now.lists) (length list.now.items) then small else None }
        ensures triples { IfSome result (λ s. small_triples s ≡ list.now.items) }
    {
        let is_first = self.count == 0 && !list.is_empty();
        if is_first || (list.len() >= FEW && self.lists.len() < MOST) {
            small
        } else {
            None
        }
    }

    /// Makes room for a list that counts as so many triples, with its small form where there is one. False
    /// where memory is refused, or where 64 bits cannot count the texts that are gathered, or their bytes.
    pub fn make_room(
        &mut self,
        list: &TripleList,
        small: Option<SmallTriples>,
        count: usize,
    ) -> bool
        requires form { IfSome small (λ s. small_triples s ≡ list.now.items) }
        requires count { count ≡ triples_size list.now.items }
        ensures kind { open_upload_kind self.new ≡ open_upload_kind self.old }
        ensures request { open_upload_request self.new ≡ open_upload_request self.old }
        ensures since { open_upload_since self.new ≡ open_upload_since self.old }
        ensures triples { triples_so_far self.new ≡ triples_so_far self.old }
        ensures room { result ≡ true → HasRoomToStage self.new list.now.items }
        ensures next { result ≡ true →
            next_form self.new ≡
            if keeps_form (count_so_far self.old) (lists_kept_apart self.old) (length list.now.items)
            then small else None }
    {
        if !self.make_place() {
            return false;
        }
        self.next_count = count;
        let next = self.kept_form(list, small);
        drop(mem::replace(&mut self.next, next));
        if self.next.is_some() {
            return true;
        }
        self.gathered.make_room(list)
    }

    /// Adds a list to those that are gathered, for which there is room. Takes no memory.
    fn gather(&mut self, list: &TripleList)
        requires room { HasRoomFor self.old.gathered list.now.items }
        requires count { self.old.next_count ≡ triples_size list.now.items }
        requires place { HasPlace self.old }
        ensures kind { self.new.kind ≡ self.old.kind }
        ensures request { self.new.request ≡ self.old.request }
        ensures since { self.new.since ≡ self.old.since }
        ensures triples { triples_so_far self.new ≡ triples_so_far self.old ++ list.now.items }
    {
        self.count = self.count.saturating_add(self.next_count);
        self.gathered.add(list);
    }

    /// Adds a small form after what is gathered, where there is a place for each. Takes no memory, but for
    /// smaller blocks for what is gathered.
    fn keep(&mut self, small: SmallTriples)
        requires count { self.old.next_count ≡ triples_size (small_triples small) }
        requires place { HasPlace self.old }
        ensures kind { self.new.kind ≡ self.old.kind }
        ensures request { self.new.request ≡ self.old.request }
        ensures since { self.new.since ≡ self.old.since }
        ensures triples { triples_so_far self.new ≡ triples_so_far self.old ++ small_triples small }
    {
        self.count = self.count.saturating_add(self.next_count);
        let alloc = *self.lists.allocator();
        let gathered = mem::replace(&mut self.gathered, PackedTriples::new(alloc));
        keep_gathered(&mut self.lists, gathered);
        self.lists.push_reserved(KeptList::Small(small));
    }

    /// Adds a list, for which there is room. Takes no memory, but for smaller blocks for what is gathered.
    #[tactic(auto, using(crate::proofs::UploadLemmas::more_staged))]
    pub fn stage(&mut self, list: &TripleList)
        requires { HasRoomToStage self.old list.now.items }
        ensures kind { open_upload_kind self.new ≡ open_upload_kind self.old }
        ensures request { open_upload_request self.new ≡ open_upload_request self.old }
        ensures since { open_upload_since self.new ≡ open_upload_since self.old }
        ensures triples { triples_so_far self.new ≡ triples_so_far self.old ++ list.now.items }
        ensures graph { graph_so_far self.new ≡ with_triples (graph_so_far self.old) list.now.items }
    {
        match self.next.take() {
            None => self.gather(list),
            Some(small) => self.keep(small),
        }
    }

    /// The upload as it is stored, after which no more will be staged. Takes no memory, but for smaller
    /// blocks.
    pub fn closed(self) -> Upload
        ensures kind { upload_kind result ≡ open_upload_kind self }
        ensures request { upload_request result ≡ open_upload_request self }
        ensures since { upload_since result ≡ open_upload_since self }
        ensures triples { staged_triples result ≡ triples_so_far self }
    {
        let OpenUpload {
            kind,
            request,
            since,
            mut lists,
            gathered,
            next: _,
            next_count: _,
            count,
        } = self;
        keep_gathered(&mut lists, gathered);
        lists.shrink_to_fit();
        Upload::new(kind, request, since, lists, count)
    }
}
