ghost use Rattle.std.specs.Prelude.{◌≡◌, ℕ, ◌<◌, ◌≤◌, ◌^◌, [], ◌∷◌, ◌++◌, Option, Some, None, OnOk, MatchOption, length, take};
ghost use Rattle.finite_graphs.specs.Walks.{At};
ghost use Rattle.finite_graphs.specs.Rows.{Steps, RowsWithin};
ghost use Rattle.finite_graphs.specs.Searching.{AllReach, Closes, FewerNew, Holds, IsTop, Merged, Rises, load};
ghost use Rattle.finite_graphs.specs.declared.search.Standing.TheVariants.{New, Open};

use slint_base::Memory;
use sqlite_items::Items;
use std::alloc::Global;

/// How a search stands to a node.
#[derive(Clone, Copy)]
pub(crate) enum Standing {
    /// Not met yet.
    New,
    /// On the path, at this place of it.
    Open(usize),
    /// Done, with this label.
    Closed(usize),
}

/// Nodes of the path that reach each other: it begins at these places of the path, and of what waits.
#[derive(Clone, Copy)]
pub(crate) struct Group {
    pub(crate) path_start: usize,
    pub(crate) ahead_start: usize,
}

/// A search along the edges of a graph, which is given by rows.
#[derive(Drop)]
pub(crate) struct Search {
    pub(crate) places: Items<Standing>,
    pub(crate) path: Items<usize>,
    pub(crate) ahead: Items<usize>,
    pub(crate) groups: Items<Group>,
    pub(crate) count: usize,
}

impl Search {
    // A node that is new comes to the end of the path, as a group of its own. All that its edges lead to waits.
    pub(crate) fn open(&mut self, rows: &[Items<usize>], node: usize) -> Result<(), Memory>
        requires state { (due : Option ℕ) × ((b : ℕ) → due ≡ Some b → b ≡ node) × Holds rows.now due self.old }
        requires reached { AllReach (Steps rows.now) self.old.path node }
        requires new { At New self.old.places node }
        ensures state { OnOk result (Holds rows.now None self.new) }
        ensures fewer { OnOk result (FewerNew self.old.places self.new.places) }
        ensures met { OnOk result (At New self.new.places node → ⊥) }
        ensures lighter { OnOk result (load self.new ≤ load self.old) }
    {
        prove!(node < self.places.len());
        prove!(node < rows.len());
        let path_start = self.path.len();
        let ahead_start = self.ahead.len();
        self.places.set(node, Standing::Open(path_start));
        self.path.push(node)?;
        append(&mut self.ahead, rows[node].as_slice())?;
        self.groups.push(Group {
            path_start,
            ahead_start,
        })?;
        Ok(())
    }

    // All groups that begin behind a place of the path become one with the group before.
    pub(crate) fn merge(&mut self, place: usize)
        requires { Rises self.old.groups }
        ensures groups { Merged self.old.groups self.new.groups place }
        ensures others { self.new ≡ record self.old { groups = self.new.groups } }
    {
        while let Some(group) = top(self.groups.as_slice()) {
            if group.path_start <= place {
                break;
            }
            self.groups.pop();
        }
    }

    // What waits last is looked at.
    pub(crate) fn go_on(&mut self, rows: &[Items<usize>], group: Group) -> Result<(), Memory>
        requires state { Holds rows.now None self.old }
        requires top { IsTop self.old.groups group }
        requires more { group.ahead_start < length self.old.ahead }
        ensures state { OnOk result (Holds rows.now None self.new) }
        ensures fewer { OnOk result (FewerNew self.old.places self.new.places) }
        ensures lighter { OnOk result (load self.new < load self.old) }
    {
        let Some(node) = self.ahead.pop() else {
            return Ok(());
        };
        prove!(node < self.places.len());
        match look_at(self.places.as_slice(), node) {
            Standing::New => self.open(rows, node)?,
            Standing::Open(place) => self.merge(place),
            Standing::Closed(_) => {}
        }
        Ok(())
    }

    // The nodes of the path from a place on get a label.
    fn label_from(&mut self, start: usize)
        requires start { start ≤ length self.old.path }
        requires on_path { (a i : ℕ) → At a self.old.path i → At (Open i) self.old.places a }
        ensures places { Closes self.old.places self.new.places self.old.path start self.old.count }
        ensures path { self.new.path ≡ take start self.old.path }
        ensures others { self.new ≡ record self.old { places = self.new.places; path = self.new.path } }
    {
        while self.path.len() > start {
            if let Some(node) = self.path.pop() {
                self.places.set(node, Standing::Closed(self.count));
            }
        }
    }

    // The last group is done.
    pub(crate) fn close(&mut self, rows: &[Items<usize>], group: Group)
        requires state { Holds rows.now None self.old }
        requires top { IsTop self.old.groups group }
        requires no_more { length self.old.ahead ≤ group.ahead_start }
        ensures state { Holds rows.now None self.new }
        ensures fewer { FewerNew self.old.places self.new.places }
        ensures lighter { load self.new < load self.old }
    {
        self.label_from(group.path_start);
        self.groups.pop();
        self.count += 1;
    }

    // A node that is new is closed, and with it all that it reaches.
    pub(crate) fn close_from(&mut self, rows: &[Items<usize>], node: usize) -> Result<(), Memory>
        requires state { Holds rows.now None self.old }
        requires whole { self.old.groups ≡ [] }
        requires new { At New self.old.places node }
        ensures state { OnOk result (Holds rows.now None self.new) }
        ensures whole { OnOk result (self.new.groups ≡ []) }
        ensures fewer { OnOk result (FewerNew self.old.places self.new.places) }
        ensures met { OnOk result (At New self.new.places node → ⊥) }
    {
        self.open(rows, node)?;
        while let Some(group) = top(self.groups.as_slice()) {
            if self.ahead.len() > group.ahead_start {
                self.go_on(rows, group)?;
            } else {
                self.close(rows, group);
            }
        }
        Ok(())
    }
}

// The last of the groups.
fn top(groups: &[Group]) -> Option<Group>
    ensures { MatchOption result (groups.now ≡ []) (λ group. IsTop groups.now group) }
{
    groups.last().copied()
}

// How a search stands to a node.
pub(crate) fn look_at(places: &[Standing], node: usize) -> Standing
    requires { node < length places.now }
    ensures { At result places.now node }
{
    places[node]
}

// Puts numbers behind those that are there.
fn append(items: &mut Items<usize>, more: &[usize]) -> Result<(), Memory>
    ensures all { OnOk result (items.new ≡ items.old ++ more.now) }
    ensures fits { OnOk result (length more.now < 2 ^ 64) }
{
    for item in more {
        items.push(*item)?;
    }
    Ok(())
}
