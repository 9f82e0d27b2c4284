//! Reading what stands behind the tables of an operator, up to the closing parenthesis.
ghost use Rattle.std.specs.Prelude.{◌≡◌, ◌++◌, ◌∷◌, [], IfOk, IfErr, OnOk};
ghost use Rattle.mk_value.specs.Tokens.{sign as sign_token};
ghost use Rattle.expr_text.specs.Arguments.{AreNames, IsCriterion, IsRange, IsTail, bounds as the_bounds, criteria as the_criteria, inner as the_inner, named as the_named, names as the_names, orders as the_orders, renamed as the_renamed, rows as the_rows, viewed as the_viewed, viewed_as as the_viewed_as};
ghost use Rattle.expr_text.specs.Operators as forms;
ghost use Rattle.expr_text.specs.Spelling.{closing, criterion_tokens, names_tokens, range_tokens, tail_tokens};
ghost use Rattle.expr_text.specs.Walk.{a_name, end_goals, end_sign, form_goals, member_goals, some_goals};
ghost use Rattle.expr_text.specs.declared.list.Item.TheVariants as items;

use crate::list::Item;
use crate::reader::Reader;
use crate::{Bound, Bounds, Crit, Crits, ExprError, NameList, Orders};
use mk_value::Name;
use tokens::Sign;

impl<'a> Reader<'a> {
    ghost use Rattle.expr_text.specs.Readers.{Becomes, Fails, Meets, rest_of, tokens_left};

    /// Reads a property and the value that is asked for.
    pub(crate) fn criterion(&mut self) -> Result<Crit, ExprError>
        ensures whole { IfOk result IsCriterion }
        ensures spells { IfOk result (λ c. tokens_left self.old ≡ criterion_tokens c ++ tokens_left self.new) }
        ensures meets { OnOk result (Meets (member_goals items.Criterion) (rest_of self.old) (rest_of self.new)) }
        ensures fails { IfErr result (Fails (member_goals items.Criterion) (rest_of self.old)) }
    {
        let prop = self.name()?;
        self.sign(Sign::Equals)?;
        let value = self.literal()?;
        Ok(Crit { prop, value })
    }

    /// Reads a property and the bounds of its values.
    fn bound(&mut self) -> Result<Bound, ExprError>
        ensures whole { IfOk result IsRange }
        ensures spells { IfOk result (λ b. tokens_left self.old ≡ range_tokens b ++ tokens_left self.new) }
        ensures meets { OnOk result (Meets (member_goals items.Range) (rest_of self.old) (rest_of self.new)) }
        ensures fails { IfErr result (Fails (member_goals items.Range) (rest_of self.old)) }
    {
        let prop = self.name()?;
        self.sign(Sign::Equals)?;
        let low = self.literal()?;
        self.sign(Sign::Colon)?;
        let high = self.literal()?;
        Ok(Bound { prop, low, high })
    }

    /// Reads criteria.
    pub(crate) fn criteria(&mut self) -> Result<Crits, ExprError>
        ensures whole { IfOk result (λ list. IsTail (the_criteria list)) }
        ensures spells { IfOk result (λ list. tokens_left self.old ≡ tail_tokens (the_criteria list) ++ (closing ∷ tokens_left self.new)) }
        ensures meets { OnOk result (Meets (form_goals forms.criteria) (rest_of self.old) (rest_of self.new)) }
        ensures fails { IfErr result (Fails (form_goals forms.criteria) (rest_of self.old)) }
    {
        let mut list = Crits::new(self.alloc);
        self.sign(Sign::Comma)?;
        'members: loop {
            let member = self.criterion()?;
            list.push(member)?;
            if self.ends(Item::Criterion)? {
                return Ok(list);
            }
        }
    }

    /// Reads bounds.
    pub(crate) fn bounds(&mut self) -> Result<Bounds, ExprError>
        ensures whole { IfOk result (λ list. IsTail (the_bounds list)) }
        ensures spells { IfOk result (λ list. tokens_left self.old ≡ tail_tokens (the_bounds list) ++ (closing ∷ tokens_left self.new)) }
        ensures meets { OnOk result (Meets (form_goals forms.bounds) (rest_of self.old) (rest_of self.new)) }
        ensures fails { IfErr result (Fails (form_goals forms.bounds) (rest_of self.old)) }
    {
        let mut list = Bounds::new(self.alloc);
        self.sign(Sign::Comma)?;
        'members: loop {
            let member = self.bound()?;
            list.push(member)?;
            if self.ends(Item::Range)? {
                return Ok(list);
            }
        }
    }

    /// Reads the properties to sort by, if there are any.
    pub(crate) fn orders(&mut self) -> Result<Orders, ExprError>
        ensures whole { IfOk result (λ list. IsTail (the_orders list)) }
        ensures spells { IfOk result (λ list. tokens_left self.old ≡ tail_tokens (the_orders list) ++ (closing ∷ tokens_left self.new)) }
        ensures meets { OnOk result (Meets (form_goals forms.orders) (rest_of self.old) (rest_of self.new)) }
        ensures fails { IfErr result (Fails (form_goals forms.orders) (rest_of self.old)) }
    {
        let mut list = Orders::new(self.alloc);
        'members: while !self.ends(Item::Order)? {
            let member = self.key()?;
            list.push(member)?;
        }
        Ok(list)
    }

    /// Reads names up to the sign that ends such a list.
    fn names_of(&mut self, item: Item) -> Result<NameList, ExprError>
        requires { member_goals item ≡ a_name ∷ [] }
        ensures whole { IfOk result AreNames }
        ensures spells { IfOk result (λ list. tokens_left self.old ≡ names_tokens list ++ (sign_token (end_sign item) ∷ tokens_left self.new)) }
        ensures meets { OnOk result (Becomes (some_goals item) (rest_of self.old) (end_goals item) (rest_of self.new)) }
        ensures fails { IfErr result (Fails (some_goals item) (rest_of self.old)) }
    {
        let mut list = NameList::new(self.alloc);
        self.sign(Sign::Comma)?;
        'members: loop {
            let member = self.name()?;
            list.push(member)?;
            if self.ends(item)? {
                return Ok(list);
            }
        }
    }

    /// Reads the closing parenthesis.
    pub(crate) fn close(&mut self) -> Result<(), ExprError>
        ensures spells { OnOk result (tokens_left self.old ≡ closing ∷ tokens_left self.new) }
        ensures meets { OnOk result (Meets (form_goals forms.nothing) (rest_of self.old) (rest_of self.new)) }
        ensures fails { IfErr result (Fails (form_goals forms.nothing) (rest_of self.old)) }
    {
        self.sign(Sign::CloseParenthesis)
    }

    /// Reads names.
    pub(crate) fn names(&mut self) -> Result<NameList, ExprError>
        ensures whole { IfOk result (λ list. IsTail (the_names list)) }
        ensures spells { IfOk result (λ list. tokens_left self.old ≡ tail_tokens (the_names list) ++ (closing ∷ tokens_left self.new)) }
        ensures meets { OnOk result (Meets (form_goals forms.names) (rest_of self.old) (rest_of self.new)) }
        ensures fails { IfErr result (Fails (form_goals forms.names) (rest_of self.old)) }
    {
        self.names_of(Item::Name)
    }

    /// Reads the name of an inner view.
    pub(crate) fn inner(&mut self) -> Result<Name, ExprError>
        ensures whole { IfOk result (λ name. IsTail (the_inner name)) }
        ensures spells { IfOk result (λ name. tokens_left self.old ≡ tail_tokens (the_inner name) ++ (closing ∷ tokens_left self.new)) }
        ensures meets { OnOk result (Meets (form_goals forms.inner) (rest_of self.old) (rest_of self.new)) }
        ensures fails { IfErr result (Fails (form_goals forms.inner) (rest_of self.old)) }
    {
        self.sign(Sign::Comma)?;
        let name = self.name()?;
        self.close()?;
        Ok(name)
    }

    /// Reads a name and another for it.
    pub(crate) fn renamed(&mut self) -> Result<(Name, Name), ExprError>
        ensures whole { IfOk result (λ read. IsTail (the_renamed read.0 read.1)) }
        ensures spells { IfOk result (λ read. tokens_left self.old ≡ tail_tokens (the_renamed read.0 read.1) ++ (closing ∷ tokens_left self.new)) }
        ensures meets { OnOk result (Meets (form_goals forms.renamed) (rest_of self.old) (rest_of self.new)) }
        ensures fails { IfErr result (Fails (form_goals forms.renamed) (rest_of self.old)) }
    {
        self.sign(Sign::Comma)?;
        let name = self.name()?;
        let new = self.inner()?;
        Ok((name, new))
    }

    /// Reads the first row, the limit and the step.
    pub(crate) fn rows(&mut self) -> Result<(u64, u64, i64), ExprError>
        ensures whole { IfOk result (λ read. IsTail (the_rows read.0 read.1 read.2)) }
        ensures spells { IfOk result (λ read. tokens_left self.old ≡ tail_tokens (the_rows read.0 read.1 read.2) ++ (closing ∷ tokens_left self.new)) }
        ensures meets { OnOk result (Meets (form_goals forms.rows) (rest_of self.old) (rest_of self.new)) }
        ensures fails { IfErr result (Fails (form_goals forms.rows) (rest_of self.old)) }
    {
        self.sign(Sign::Comma)?;
        let first = self.count()?;
        self.sign(Sign::Comma)?;
        let limit = self.count()?;
        self.sign(Sign::Comma)?;
        let step = self.number()?;
        self.close()?;
        Ok((first, limit, step))
    }

    /// Reads names, and one for what is new.
    pub(crate) fn named(&mut self) -> Result<(NameList, Name), ExprError>
        ensures whole { IfOk result (λ read. IsTail (the_named read.0 read.1)) }
        ensures spells { IfOk result (λ read. tokens_left self.old ≡ tail_tokens (the_named read.0 read.1) ++ (closing ∷ tokens_left self.new)) }
        ensures meets { OnOk result (Meets (form_goals forms.named) (rest_of self.old) (rest_of self.new)) }
        ensures fails { IfErr result (Fails (form_goals forms.named) (rest_of self.old)) }
    {
        let list = self.names_of(Item::Named)?;
        let name = self.name()?;
        self.close()?;
        Ok((list, name))
    }

    /// Reads the name of a viewer and names.
    pub(crate) fn viewed(&mut self) -> Result<(Name, NameList), ExprError>
        ensures whole { IfOk result (λ read. IsTail (the_viewed read.0 read.1)) }
        ensures spells { IfOk result (λ read. tokens_left self.old ≡ tail_tokens (the_viewed read.0 read.1) ++ (closing ∷ tokens_left self.new)) }
        ensures meets { OnOk result (Meets (form_goals forms.viewed) (rest_of self.old) (rest_of self.new)) }
        ensures fails { IfErr result (Fails (form_goals forms.viewed) (rest_of self.old)) }
    {
        self.sign(Sign::Comma)?;
        let viewer = self.name()?;
        let list = self.names()?;
        Ok((viewer, list))
    }

    /// Reads the name of a viewer, names, and one for what is new.
    pub(crate) fn viewed_as(&mut self) -> Result<(Name, NameList, Name), ExprError>
        ensures whole { IfOk result (λ read. IsTail (the_viewed_as read.0 read.1 read.2)) }
        ensures spells { IfOk result (λ read. tokens_left self.old ≡ tail_tokens (the_viewed_as read.0 read.1 read.2) ++ (closing ∷ tokens_left self.new)) }
        ensures meets { OnOk result (Meets (form_goals forms.viewed_as) (rest_of self.old) (rest_of self.new)) }
        ensures fails { IfErr result (Fails (form_goals forms.viewed_as) (rest_of self.old)) }
    {
        self.sign(Sign::Comma)?;
        let viewer = self.name()?;
        let (list, name) = self.named()?;
        Ok((viewer, list, name))
    }
}
