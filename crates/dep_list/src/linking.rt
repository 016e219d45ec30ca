//! Pairs are linked and taken out.
ghost use Rattle.std.specs.Prelude.{◌≡◌, ◌+◌, ◌<◌, ◌∷◌, [], ◌++◌, length, IsSome};
ghost use Rattle.dep_list.specs.Cells.{find, without};
ghost use Rattle.dep_list.specs.Lists.{Held, state, ends_of, entries, pairs_of, drop_key, SameRoom};

use crate::lists::Lists;
use crate::node::{Link, Node, Place, Side};
use crate::steps::spare_node;

impl Lists {
    // Appends a pair, whose node is the top of the spare ones.
    pub(crate) fn link(&mut self, reader: usize, point: usize)
        requires held { Held (state self.old) }
        requires reader_in { reader < length (state self.old).readers }
        requires point_in { point < length (state self.old).points }
        requires room { 0 < self.old.spare }
        ensures held { Held (state self.new) }
        ensures pairs { pairs_of (state self.new) ≡ pairs_of (state self.old) ++ (reader, point) ∷ [] }
        ensures room { SameRoom (state self.old) (state self.new) }
    {
        let Some(at) = self.top else {
            return;
        };
        let below = self.nodes.get(at).by_reader.next;
        let by_reader = Link {
            prev: self.ends(Side::Reader, reader).last,
            next: None,
        };
        let by_point = Link {
            prev: self.ends(Side::Point, point).last,
            next: None,
        };
        let linked = true;
        self.nodes.renew(
            at,
            Node {
                linked,
                reader,
                point,
                by_reader,
                by_point,
            },
        );
        self.top = below;
        self.spare -= 1;
        self.count += 1;
        self.push_end(Side::Reader, reader, at);
        self.push_end(Side::Point, point, at);
    }

    // Takes out the pair at `at`, whose node is the top of the spare ones from then on.
    pub(crate) fn remove(&mut self, at: Place)
        requires held { Held (state self.old) }
        requires there { IsSome (find (entries (state self.old).cells) at.ptr) }
        ensures held { Held (state self.new) }
        ensures pairs { entries (state self.new).cells ≡ without at.ptr (entries (state self.old).cells) }
        ensures room { SameRoom (state self.old) (state self.new) }
        ensures fewer { self.new.count + 1 ≡ self.old.count }
    {
        let node = *self.nodes.get(at);
        self.nodes.renew(at, spare_node(self.top));
        self.top = Some(at);
        self.spare += 1;
        self.count -= 1;
        self.cut_out(Side::Reader, node.reader, node.by_reader);
        self.cut_out(Side::Point, node.point, node.by_point);
    }

    // Takes out all pairs of one reader or one point.
    pub(crate) fn unlink(&mut self, side: Side, key: usize)
        requires held { Held (state self.old) }
        requires inside { key < length (ends_of side (state self.old)) }
        ensures held { Held (state self.new) }
        ensures pairs { pairs_of (state self.new) ≡ drop_key side key (pairs_of (state self.old)) }
        ensures room { SameRoom (state self.old) (state self.new) }
    {
        while let Some(at) = self.ends(side, key).first {
            self.remove(at);
        }
    }
}
