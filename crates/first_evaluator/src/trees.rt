use slint_base::Name;
use sqlite_items::Items;

/// A factor of a product: a number, or the name of a property.
#[derive(Debug, Drop)]
pub enum Factor {
    Lit(i32),
    Named(Name),
}

/// A sum: its terms, each the list of its factors.
pub type Terms = Items<Items<Factor>>;

/// A property: its name, and the sum that it is bound to.
#[derive(Debug, Drop)]
pub struct FirstProp {
    pub name: Name,
    pub terms: Terms,
}

/// The properties of a component, in the order of the text.
pub type FirstProps = Items<FirstProp>;

/// A source of the first language: the properties of its component.
#[derive(Debug, Drop)]
pub struct FirstFile {
    pub props: FirstProps,
}
