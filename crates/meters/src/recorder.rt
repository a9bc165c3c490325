// Adds names and declarations to a table, and prints each.
use crate::fault::Fault;
use crate::shown::Heading;
use elements::{BtfEnum, BtfEnum64, BtfMember, BtfParam, ElementType};
use layout::Declaration;
use table::Btf;

#[derive(Drop)]
pub struct Recorder<'r, 't> {
    pub rt: &'r HostRuntime,
    pub table: Btf<'t>,
    // the string area of the table
    pub names: Vec<u8>,
}

impl Recorder<'_, '_> {
    // Adds a name, and answers where it stands.
    pub fn name(&mut self, text: &str) -> Result<u32, Fault> {
        let at = self
            .table
            .add_string(self.names.as_mut_slice(), text.as_bytes())?;
        println!(self.rt; "name {at} {text}")?;
        Ok(at)
    }

    // A value of an Enum, with its name added.
    pub fn variant(&mut self, text: &str, value: u32) -> Result<BtfEnum, Fault> {
        let name_offset = self.name(text)?;
        Ok(BtfEnum { name_offset, value })
    }

    // A value of an Enum64, with its name added.
    pub fn variant64(&mut self, text: &str, value: u64) -> Result<BtfEnum64, Fault> {
        Ok(BtfEnum64::new(self.name(text)?, value))
    }

    // A parameter of a FuncProto, with its name added.
    pub fn param(&mut self, text: &str, btf_type: u32) -> Result<BtfParam, Fault> {
        let name_offset = self.name(text)?;
        Ok(BtfParam {
            name_offset,
            btf_type,
        })
    }

    // A member of a Struct or a Union, with its name added.
    pub fn member(&mut self, text: &str, btf_type: u32, offset: u32) -> Result<BtfMember, Fault> {
        let name_offset = self.name(text)?;
        Ok(BtfMember {
            name_offset,
            btf_type,
            offset,
        })
    }

    // Adds a declaration with its elements, and answers its id.
    pub fn declare<E: ElementType>(
        &mut self,
        declaration: &Declaration,
        elements: &[E],
    ) -> Result<u32, Fault> {
        let names = self.names.as_slice();
        let id = self.table.add_type(names, declaration, elements)?;
        let head = self.table.type_by_id(names, id)?;
        let name = self.table.type_name(names, id)?;
        println!(self.rt; "id {id} {}", Heading { head, name })?;
        Ok(id)
    }

    // Adds a declaration that has no elements.
    pub fn declare_alone(&mut self, declaration: &Declaration) -> Result<u32, Fault> {
        self.declare::<BtfMember>(declaration, &[])
    }

    // Adds a name, and then the declaration without elements that is made under it.
    pub(crate) fn declare_named<M: FnOnce(u32) -> Declaration>(
        &mut self,
        text: &str,
        make: M,
    ) -> Result<u32, Fault>
        requires { M.IsAlwaysCallable make }
    {
        let name_offset = self.name(text)?;
        self.declare_alone(&make(name_offset))
    }
}
