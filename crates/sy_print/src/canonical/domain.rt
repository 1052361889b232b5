ghost use Rattle.sy_print.specs.CanonicalText.{attr_text, base_text, domain_text, enum_text, type_text};

use super::writer::{Printed, Writer};
use sy_base::Memory;
use sy_lex::{Keyword, Sign};
use sy_spec::{AttrTree, BaseTree, DomainTree, EnumTree, TypeTree};

impl Printed for EnumTree {
    ghost text = { enum_text };

    fn put(&self, out: &mut Writer) -> Result<(), Memory> {
        out.keyword(Keyword::Enumeration)?;
        out.sign(Sign::Open)?;
        out.listed(self.constants.items())?;
        out.sign(Sign::Close)
    }
}

impl Printed for BaseTree {
    ghost text = { base_text };

    fn put(&self, out: &mut Writer) -> Result<(), Memory> {
        match self {
            BaseTree::Role(_) => out.keyword(Keyword::Role),
            BaseTree::Asset(_) => out.keyword(Keyword::Asset),
            BaseTree::Event(_) => out.keyword(Keyword::Event),
            BaseTree::Named(name) => out.token(name),
        }
    }
}

impl Printed for AttrTree {
    ghost text = { attr_text };

    fn put(&self, out: &mut Writer) -> Result<(), Memory> {
        if self.env.is_some() {
            out.keyword(Keyword::Env)?;
        }
        out.token(&self.name)?;
        out.sign(Sign::Colon)?;
        out.token(&self.type_name)
    }
}

impl Printed for TypeTree {
    ghost text = { type_text };

    fn put(&self, out: &mut Writer) -> Result<(), Memory> {
        match self {
            TypeTree::Enumeration(name, constants) => {
                out.token(name)?;
                out.keyword(Keyword::IsA)?;
                constants.put(out)
            }
            TypeTree::Derived(name, base, attributes) => {
                out.token(name)?;
                out.keyword(Keyword::IsA)?;
                base.put(out)?;
                out.with(attributes.items())
            }
        }
    }
}

impl Printed for DomainTree {
    ghost text = { domain_text };

    fn put(&self, out: &mut Writer) -> Result<(), Memory> {
        out.keyword(Keyword::Domain)?;
        out.last(self.name.text.bytes())?;
        out.lines(self.types.items())?;
        out.heading(Keyword::EndDomain)
    }
}
