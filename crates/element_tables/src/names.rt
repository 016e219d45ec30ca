ghost use Rattle.std.specs.Prelude.{◌≡◌, IsTrue};
ghost use Rattle.element_tables.specs.Rows.{named, is_rising, byte_order, rows_of};

/// A table of names in byte order, and what stands beside each. A name is found by halving.
#[derive(Drop)]
pub struct NameTable<'a, T> {
    pub rows: &'a [(&'a str, T)],
    ghost in_order: { IsTrue (is_rising byte_order (rows_of rows.now)) },
}

impl<'a, T: Copy> NameTable<'a, T> {
    /// What stands beside a name, `None` exactly where no row has the name.
    pub fn find(&self, name: &str) -> Option<T>
        ensures { result ≡ named name.now (rows_of self.now.rows.now) }
    {
        match self.rows.binary_search_by(|row| row.0.cmp(name)) {
            Ok(at) => Some(self.rows[at].1),
            Err(_) => None,
        }
    }
}
